//! The first and the last bit of a word, runs within a word and across words, numbers after the last word, and words that
//! are far apart.
use crate::{SparseSet, clear, count, first_run, has, insert, longest_run, next, next_gap, remove};
use std::alloc::AllocError;
use std::process::Abort;
use std::test::Fail;

#[test]
fn numbers_at_the_ends_of_words(rt: HostRuntime) {
    let mut words = [0u64; 2];
    for i in [0, 62, 63, 64, 127, 1] {
        insert(&mut words, i);
    }
    remove(&mut words, 1);
    assert_eq!(rt; words, [3 << 62 | 1, 1 << 63 | 1]);
    assert_eq!(rt; (has(&words, 127), has(&words, 128)), (true, false));
    assert_eq!(rt; (next(&words, 65), next(&words, 128)), (Some(127), None));
    assert_eq!(rt;
        (next_gap(&words, 62, 65), next_gap(&words, 127, 129)),
        (None, Some(128))
    );
    assert_eq!(rt;
        (first_run(&words, 2, 128), first_run(&words, 3, 64)),
        (Some(62), None)
    );
    assert_eq!(rt; (count(&words), longest_run(&words, 128)), (5, 3));
    clear(&mut words);
    assert_eq!(rt; count(&words), 0);
}

#[test]
fn runs_over_words(rt: HostRuntime) {
    // 60 to 129, and 131.
    let long = [0xf000_0000_0000_0000u64, u64::MAX, 0b1011];
    assert_eq!(rt;
        (first_run(&long, 4, 64), first_run(&long, 5, 64)),
        (Some(60), None)
    );
    assert_eq!(rt;
        (first_run(&long, 70, 192), first_run(&long, 71, 192)),
        (Some(60), None)
    );
    // Every second number up to 62, then 64, and 100 to 103.
    let sparse = [0x5555_5555_5555_5555u64, 0xf0_0000_0001];
    assert_eq!(rt;
        (first_run(&sparse, 2, 128), first_run(&sparse, 4, 128)),
        (Some(100), Some(100))
    );
    assert_eq!(rt;
        (first_run(&sparse, 4, 103), first_run(&sparse, 5, 128)),
        (None, None)
    );
}

#[test]
fn words_far_apart(rt: HostRuntime) -> Result<(), AllocError> {
    let mut set = SparseSet::new(rt.alloc(), 10000)?;
    set.insert(8191);
    set.insert(5);
    set.insert(63);
    set.insert(9999);
    assert_eq!(rt; (set.next(5), set.next(6)), (Some(5), Some(63)));
    assert_eq!(rt; (set.next(64), set.next(8192)), (Some(8191), Some(9999)));
    set.remove(63);
    assert_eq!(rt; (set.next(5), set.next(6)), (Some(5), Some(8191)));
    set.remove(8191);
    assert_eq!(rt; (set.next(6), set.next(10000)), (Some(9999), None));
    Ok(())
}
