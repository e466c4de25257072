use crate::{header, script};
use std::test::Fail;

#[test]
fn a_script_of_three_nodes_is_written(rt: HostRuntime) -> Result<(), Fail> {
    let alloc = rt.alloc();
    let wanted: &[u8] = b"@new $n node
@set $n.key 0
@set head $n
@get $p head
@new $n node
@set $n.key 1
@set $n.next $p
@set head $n
@get $p head
@new $n node
@set $n.key 2
@set $n.next $p
@set head $n
@get $p head
@new $w node
@set $w.other $n
collect force
heap
stats
";
    assert_eq!(rt; script(alloc, 3)?.as_slice(), wanted);
    let none: &[u8] = b"collect force\nheap\nstats\n";
    assert_eq!(rt; script(alloc, 0)?.as_slice(), none);
    assert_eq!(rt; header(alloc)?.len(), 276);
    Ok(())
}
