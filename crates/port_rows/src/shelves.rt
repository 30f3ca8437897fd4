//! Images in memory: inserts, reads and writes that fail by number, and the tape at each earlier moment.
use crate::media::{DISC_BYTES, SIZES, STALE, TAPE_BYTES, inserts, reads, record_of, writes};
use il_ports::{Failed, Inserted, Medium, MemoryMedium, New};
use il_same::{same, same_bytes};
use lif_model::{RECORD, Record};
use std::alloc::{AllocError, Global};
use std::process::Abort;
use std::test::Fail;

/// The image A has a record of ones, and a two more. The second A does not count.
fn shelf(alloc: Global) -> Result<Vec<(String, Vec<u8>)>, AllocError> {
    let mut image = vec![in alloc; 1; RECORD]?;
    image.push(2)?;
    let long = vec![in alloc; 0; DISC_BYTES + 1]?;
    let mut shelf = Vec::new(alloc);
    shelf.push((String::from_str(alloc, "A")?, image))?;
    shelf.push((String::from_str(alloc, "LONG")?, long))?;
    shelf.push((String::from_str(alloc, "A")?, vec![in alloc; 9]?))?;
    Ok(shelf)
}

/// A medium with these images, of which the read and the insert of that number fail, and the writes that are listed.
/// No call has number 0. There is room for so many writes.
fn medium_of(
    alloc: Global,
    shelf: Vec<(String, Vec<u8>)>,
    fails: u64,
    listed: Vec<(u64, Record)>,
    room: usize,
) -> Result<MemoryMedium, AllocError> {
    let [reads, inserts] = [vec![in alloc; fails]?, vec![in alloc; fails]?];
    MemoryMedium::new(alloc, shelf, reads, listed, inserts, room)
}

/// How many bytes the image of that name has.
fn size_of(medium: &MemoryMedium, name: &str) -> Option<usize> {
    medium.image(name).map(|image| image.len())
}

#[test]
fn a_shelf(rt: HostRuntime) -> Result<(), Fail> {
    let alloc = rt.alloc();
    let mut medium = medium_of(alloc, shelf(alloc)?, 2, Vec::new(alloc), 0)?;
    assert!(rt; medium.writes().is_empty(), "no write at first");
    assert!(rt; same(size_of(&medium, "A"), Some(257)), "the first A");
    let too_long = Ok(Inserted::BadSize(630_785));
    inserts(&rt, &mut medium, 1, "B", New::No, Ok(Inserted::NoSuch), 0);
    inserts(&rt, &mut medium, 2, "A", New::No, Err(Failed), 0);
    inserts(&rt, &mut medium, 3, "LONG", New::Tape, too_long, 0);
    inserts(&rt, &mut medium, 4, "A", New::Disc, Ok(Inserted::Tape), 512);
    reads(&rt, &mut medium, 0, Ok(()), &[1; RECORD]);
    reads(&rt, &mut medium, 0, Err(Failed), &STALE);
    reads(&rt, &mut medium, 1, Ok(()), &record_of(2, 0));
    reads(&rt, &mut medium, 511, Ok(()), &[0; RECORD]);
    assert!(rt;
        same(size_of(&medium, "A"), Some(TAPE_BYTES)),
        "A is a tape"
    );
    assert!(rt;
        same(size_of(&medium, "LONG"), Some(DISC_BYTES + 1)),
        "LONG stays"
    );
    assert!(rt; same(size_of(&medium, "B"), None), "B is not made");
    Ok(())
}

/// A name of a new image has at most 4096 bytes.
#[test]
fn a_new_image(rt: HostRuntime) -> Result<(), Fail> {
    let alloc = rt.alloc();
    let mut medium = medium_of(alloc, shelf(alloc)?, 0, Vec::new(alloc), 0)?;
    let longest = String::from_utf8(vec![in alloc; b'N'; 4096]?)?;
    let longer = String::from_utf8(vec![in alloc; b'N'; 4097]?)?;
    let made = Ok(Inserted::Tape);
    inserts(&rt, &mut medium, 1, &longer, New::Disc, Err(Failed), 0);
    inserts(&rt, &mut medium, 2, &longest, New::Disc, made, 2464);
    reads(&rt, &mut medium, 2463, Ok(()), &[0; RECORD]);
    assert!(rt;
        same(size_of(&medium, &longest), Some(DISC_BYTES)),
        "a disc"
    );
    assert!(rt; same(size_of(&medium, "A"), Some(257)), "A stays");
    Ok(())
}

#[test]
fn sizes_of_images(rt: HostRuntime) -> Result<(), Fail> {
    let alloc = rt.alloc();
    for (length, want, records) in SIZES {
        let mut shelf = Vec::new(alloc);
        shelf.push((String::from_str(alloc, "I")?, vec![in alloc; 3; length]?))?;
        let mut medium = medium_of(alloc, shelf, 0, Vec::new(alloc), 0)?;
        inserts(&rt, &mut medium, length, "I", New::No, Ok(want), records);
    }
    Ok(())
}

/// The image has three records, each one of these bytes all over, or a two and zeros; and zeros after them.
fn holds(rt: &impl Abort, image: &[u8], records: [u8; 3]) {
    for (place, byte) in image.iter().enumerate() {
        let want = match records.get(place / RECORD).copied() {
            None => 0,
            Some(2) if place % RECORD > 0 => 0,
            Some(byte) => byte,
        };
        assert!(rt; same(*byte, want), "byte {place}");
    }
}

/// Fills the image with the tape at that moment.
fn image_at(
    rt: &impl Abort,
    medium: &MemoryMedium,
    writes: u64,
    torn: Option<&Record>,
    image: &mut [u8],
) {
    assert!(rt; 0 < medium.size(), "a tape is in");
    assert!(rt;
        image.len() == RECORD * usize::from(medium.size()),
        "a whole image"
    );
    let made = medium.writes().len() as u64;
    assert!(rt; writes <= made, "{writes} writes were made");
    assert!(rt; torn.is_none() || writes < made, "one more than {writes}");
    medium.image_at(writes, torn, image);
}

/// Writes of A: the second is listed twice, the first entry counting, and there is room for four.
fn written(rt: &impl Abort, alloc: Global) -> Result<MemoryMedium, Fail> {
    let listed = Vec::from_array(alloc, [(2, [9; RECORD]), (2, [8; RECORD])])?;
    let mut medium = medium_of(alloc, shelf(alloc)?, 0, listed, 4)?;
    inserts(rt, &mut medium, 1, "A", New::No, Ok(Inserted::Tape), 512);
    for (n, byte, want, left) in [
        (1, 3, Ok(()), 3),
        (2, 4, Err(Failed), 9),
        (1, 5, Ok(()), 5),
        (0, 7, Ok(()), 7),
        (0, 6, Err(Failed), 7),
    ] {
        writes(rt, &mut medium, n, byte, want);
        reads(rt, &mut medium, n, Ok(()), &[left; RECORD]);
    }
    Ok(medium)
}

#[test]
fn each_write_is_kept(rt: HostRuntime) -> Result<(), Fail> {
    let alloc = rt.alloc();
    let medium = written(&rt, alloc)?;
    let image = medium.image("A").unwrap_or(&[]);
    assert!(rt; same(image.len(), TAPE_BYTES), "the size of A");
    holds(&rt, image, [7, 5, 9]);
    let long = medium.image("LONG").unwrap_or(&[]);
    assert!(rt; same(long.len(), DISC_BYTES + 1), "the size of LONG");
    holds(&rt, long, [0, 0, 0]);
    assert!(rt; same(medium.writes().len(), 4), "four writes");
    for (k, (n, byte)) in [(1, 3), (2, 9), (1, 5), (0, 7)].into_iter().enumerate() {
        let write = medium.writes().get(k).copied();
        assert!(rt; same(write, Some((n, [byte; RECORD]))), "write {k}");
    }
    Ok(())
}

/// Between two writes, and within each of them, the tape is as it was before, but for the record that is written.
#[test]
fn earlier_moments(rt: HostRuntime) -> Result<(), Fail> {
    let alloc = rt.alloc();
    let medium = written(&rt, alloc)?;
    let torn = [8; RECORD];
    for (writes, torn, records) in [
        (0, None, [1, 2, 0]),
        (0, Some(&torn), [1, 8, 0]),
        (1, None, [1, 3, 0]),
        (1, Some(&torn), [1, 3, 8]),
        (2, None, [1, 3, 9]),
        (2, Some(&torn), [1, 8, 9]),
        (3, None, [1, 5, 9]),
        (3, Some(&torn), [8, 5, 9]),
        (4, None, [7, 5, 9]),
    ] {
        let mut image = vec![in alloc; 4; TAPE_BYTES]?;
        image_at(&rt, &medium, writes, torn, &mut image);
        holds(&rt, &image, records);
    }
    Ok(())
}
