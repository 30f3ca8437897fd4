//! Images in files: how they are found, made, read and written.
use crate::media::{DISC_BYTES, SIZES, TAPE_BYTES, inserts, reads, record_of, writes};
use il_ports::{Failed, FileMedium, Inserted, New};
use il_same::{same, same_bytes};
use lif_model::RECORD;
use std::alloc::AllocError;
use std::fs;
use std::process::Abort;
use std::test::Fail;
use system_files::SystemImages;

/// Whether the file has `length` bytes, all of them zeros.
fn is_of_zeros(bytes: &[u8], length: usize) -> bool {
    bytes.len() == length && bytes.iter().all(|byte| *byte == 0)
}

/// A missing file, a folder, a device, files in what is no folder and in a missing one; and a file of six records
/// and two bytes that may only be read.
#[test]
fn what_is_found(rt: HostRuntime) -> Result<(), Fail> {
    let _ = fs::remove_dir_all(&rt, "tapes");
    fs::create_dir(&rt, "tapes")?;
    let mut short = vec![in rt.alloc(); 5; 6 * RECORD]?;
    short.extend_from_slice(&[6, 7])?;
    fs::write(&rt, "tapes/SHORT", short.as_slice())?;
    let mut permissions = fs::metadata(&rt, "tapes/SHORT")?.permissions();
    permissions.set_readonly(true);
    fs::set_permissions(&rt, "tapes/SHORT", permissions)?;

    let mut medium = FileMedium::new(SystemImages::new(&rt));
    for (k, (name, new, want, records)) in [
        ("tapes/NONE", New::No, Ok(Inserted::NoSuch), 0),
        ("tapes", New::Tape, Err(Failed), 0),
        ("/dev/null", New::No, Err(Failed), 0),
        ("tapes/SHORT/NEW", New::Tape, Err(Failed), 0),
        ("tapes/NONE/NEW", New::Tape, Err(Failed), 0),
        ("tapes/SHORT", New::Disc, Ok(Inserted::Tape), 512),
    ]
    .into_iter()
    .enumerate()
    {
        inserts(&rt, &mut medium, k, name, new, want, records);
    }
    reads(&rt, &mut medium, 5, Ok(()), &[5; RECORD]);
    reads(&rt, &mut medium, 6, Ok(()), &record_of(6, 7));
    reads(&rt, &mut medium, 511, Ok(()), &[0; RECORD]);
    fs::remove_dir_all(&rt, "tapes")?;
    Ok(())
}

#[test]
fn what_is_made(rt: HostRuntime) -> Result<(), Fail> {
    for (name, new, records, length) in [
        ("MADE_TAPE", New::Tape, 512, TAPE_BYTES),
        ("MADE_DISC", New::Disc, 2464, DISC_BYTES),
    ] {
        let mut medium = FileMedium::new(SystemImages::new(&rt));
        inserts(
            &rt,
            &mut medium,
            length,
            name,
            new,
            Ok(Inserted::Tape),
            records,
        );
        let made = fs::read(&rt, name)?;
        assert!(rt; is_of_zeros(&made, length), "a file of {length} zeros");
        fs::remove_file(&rt, name)?;
    }
    Ok(())
}

#[test]
fn sizes_of_files(rt: HostRuntime) -> Result<(), Fail> {
    for (length, want, records) in SIZES {
        let image = vec![in rt.alloc(); 3; length]?;
        fs::write(&rt, "IMAGE", image.as_slice())?;
        let mut medium = FileMedium::new(SystemImages::new(&rt));
        inserts(
            &rt,
            &mut medium,
            length,
            "IMAGE",
            New::No,
            Ok(want),
            records,
        );
    }
    fs::remove_file(&rt, "IMAGE")?;
    Ok(())
}

/// Puts a record into an image that gets this length first.
fn put(
    rt: &impl Abort,
    image: &mut Vec<u8>,
    length: usize,
    n: u16,
    byte: u8,
) -> Result<(), AllocError> {
    image.resize(length, 0)?;
    let start = RECORD * usize::from(n);
    assert!(rt; start + RECORD <= image.len(), "record {n} is in the image");
    image[start..start + RECORD].fill(byte);
    Ok(())
}

/// A file of six records and two bytes grows by each write past its end, and by no other.
#[test]
fn writes_in_files(rt: HostRuntime) -> Result<(), Fail> {
    let mut want = vec![in rt.alloc(); 5; 1538]?;
    fs::write(&rt, "WRITES", want.as_slice())?;
    let mut medium = FileMedium::new(SystemImages::new(&rt));
    inserts(
        &rt,
        &mut medium,
        1,
        "WRITES",
        New::No,
        Ok(Inserted::Tape),
        512,
    );
    for (n, byte, length) in [
        (2, 7, 1538),
        (6, 8, 1792),
        (9, 9, 2560),
        (511, 6, TAPE_BYTES),
    ] {
        writes(&rt, &mut medium, n, byte, Ok(()));
        put(&rt, &mut want, length, n, byte)?;
        let got = fs::read(&rt, "WRITES")?;
        assert!(rt; same_bytes(&got, &want), "the file after write of {n}");
    }
    fs::remove_file(&rt, "WRITES")?;

    // Nobody may write to this one.
    let mut medium = FileMedium::new(SystemImages::new(&rt));
    inserts(
        &rt,
        &mut medium,
        2,
        "/proc/version",
        New::No,
        Ok(Inserted::Tape),
        512,
    );
    writes(&rt, &mut medium, 0, 1, Err(Failed));
    Ok(())
}
