//! What a batch has room for.
use crate::labels::check;
use crate::names::{name_of, new_name};
use il_same::same;
use lif_dir::{Batch, Name, NewName, Part};
use std::process::Abort;
use std::test::Fail;

/// The bytes of files are as many as the largest medium has.
fn takes_bytes(rt: &impl Abort, batch: &mut Batch, name: NewName, most: &[u8], long: &[u8]) {
    check(rt, !batch.add_store(name, 1, [0; 4], long), "too long");
    let is_empty = batch.parts().is_empty() && batch.bytes().is_empty();
    check(rt, is_empty, "nothing added");
    let is_added = batch.add_store(name, 1, [1, 2, 3, 4], most);
    check(rt, is_added, "two bytes short");
    let is_added = batch.add_store(name, 1, [0; 4], b"HPX");
    check(rt, !is_added, "one byte too many");
    let is_added = batch.add_store(name, 0xE080, [0; 4], b"HP");
    check(rt, is_added, "the last bytes");
}

/// The last two bytes are those of the second part.
fn has_two_parts(rt: &impl Abort, batch: &Batch, name: NewName) {
    let second = Part::Store {
        name,
        kind: 0xE080,
        implementation: [0; 4],
        from: 630_782,
        length: 2,
    };
    let part = batch.parts().get(1).copied();
    check(rt, same(part, Some(second)), "the second part");
    check(rt, batch.bytes().ends_with(b"\x07HP"), "its bytes");
}

/// A batch of two parts takes 31 altogether.
fn takes_parts(rt: &impl Abort, batch: &mut Batch, old: Name, name: NewName) {
    for _ in 2..31 {
        check(rt, batch.add_rename(old, name), "a part more");
    }
    check(rt, !batch.add_store(name, 1, [0; 4], b""), "no store more");
    let has_room = batch.add_rename(old, name) || batch.add_purge(old);
    check(rt, !has_room, "no part more");
    check(rt, batch.parts().len() == 31, "31 parts");
}

/// A batch that is cleared is empty, and takes parts again.
fn clears(rt: &impl Abort, batch: &mut Batch, old: Name) {
    batch.clear();
    let is_empty = batch.parts().is_empty() && batch.bytes().is_empty();
    check(rt, is_empty, "cleared");
    check(rt, batch.add_purge(old), "a purge");
    let purge = [Part::Purge(old)];
    check(rt, same(batch.parts(), purge.as_slice()), "that part alone");
}

/// A batch takes 31 parts, and as many bytes as the largest medium has; what it does not take leaves it as it was.
#[test]
fn a_batch_takes_what_it_has_room_for(rt: HostRuntime) -> Result<(), Fail> {
    let (old, name) = (name_of(&rt, b"A"), new_name(&rt, b"A"));
    let most = vec![in rt.alloc(); 7; 630_782]?;
    let long = vec![in rt.alloc(); 7; 630_785]?;
    let mut batch = Batch::new(rt.alloc())?;
    takes_bytes(&rt, &mut batch, name, &most, &long);
    has_two_parts(&rt, &batch, name);
    takes_parts(&rt, &mut batch, old, name);
    clears(&rt, &mut batch, old);
    Ok(())
}
