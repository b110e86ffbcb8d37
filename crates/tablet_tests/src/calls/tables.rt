// Calls of a set of two partitions and four buckets, and what each answers.
use self::Call::{
    AddPart, AddShadow, DropShadows, Give, Has, Install, Put, PutKeys, Show, Snapshot, Switch, Take,
};

// An index, a partition and a bucket.
pub type At = (u64, u64, u64);

#[derive(Clone, Copy, Debug)]
pub enum Call {
    Has(At),
    Put(At, u64, &'static str),
    PutKeys(At, u64, &'static str),
    Install(At, u64, &'static str),
    Show(At, u64),
    Snapshot(At, u64),
    Take(At),
    Give(At),
    AddPart,
    AddShadow(u64, u64, Option<u64>),
    DropShadows(u64),
    Switch(u64),
}

pub type Script = &'static [(Call, &'static str)];

const FIRST: At = (0, 0, 0);

const OTHER: At = (0, 0, 1);

const SHADOW: At = (1, 0, 0);

const FURTHER: At = (2, 0, 0);

const TABLETS: Script = &[
    (Has(FIRST), "yes"),
    (Has((0, 1, 3)), "yes"),
    (Has((0, 2, 0)), "no"),
    (Has((0, 0, 4)), "no"),
    (Has(SHADOW), "no"),
    (AddPart, "yes"),
    (Has((0, 2, 3)), "yes"),
    (Has((0, 3, 0)), "no"),
    (Put((0, 2, 3), 2, "1,5"), "yes"),
    (Show((0, 2, 3), 2), "1,5;"),
    (Show((0, 2, 2), 2), ""),
    (Show((0, 3, 3), 2), "no"),
];

const VERSIONS: Script = &[
    (Show(FIRST, 9), ""),
    (Put(FIRST, 2, "1,5"), "yes"),
    (Put(FIRST, 3, "1,7"), "yes"),
    (Show(FIRST, 1), ""),
    (Show(FIRST, 2), "1,5;"),
    (Show(FIRST, 3), "1,12;"),
    (Show(FIRST, 9), "1,12;"),
    (Snapshot(FIRST, 1), "0"),
    (Snapshot(FIRST, 2), "1"),
    (Snapshot(FIRST, 9), "2"),
    // No version is there twice, and none comes late.
    (Put(FIRST, 3, "1,1"), "no"),
    (Put(FIRST, 2, "1,1"), "no"),
    // A rowset of another shape.
    (PutKeys(FIRST, 4, "1"), "no"),
    (Put(FIRST, 9, "0,1\n2,3"), "yes"),
    (Show(FIRST, 8), "1,12;"),
    (Show(FIRST, 9), "0,1;1,12;2,3;"),
    (Show(OTHER, 9), ""),
];

const HISTORY: Script = &[
    (Put(FIRST, 2, "1,1"), "yes"),
    (Put(FIRST, 3, "1,10"), "yes"),
    (Put(FIRST, 4, "1,100"), "yes"),
    (Install(FIRST, 3, "1,7"), "yes"),
    (Show(FIRST, 3), "1,7;"),
    (Show(FIRST, 4), "1,107;"),
    // What was put for others has their last version.
    (Show(FIRST, 2), ""),
    (Install(FIRST, 9, "2,2"), "yes"),
    (Show(FIRST, 9), "2,2;"),
    (Snapshot(FIRST, 9), "1"),
    // History of a tablet without a rowset.
    (Install(OTHER, 1, "3,3"), "yes"),
    (Put(OTHER, 2, "3,4"), "yes"),
    (Show(OTHER, 1), "3,3;"),
    (Show(OTHER, 2), "3,7;"),
    (Install((0, 0, 4), 1, "3,3"), "no"),
];

const COMPACTION: Script = &[
    (Put(FIRST, 2, "1,1"), "yes"),
    (Put(FIRST, 3, "2,2"), "yes"),
    (Put(FIRST, 4, "1,10"), "yes"),
    (Put(FIRST, 5, "2,20"), "yes"),
    // Four are not enough.
    (Take(FIRST), "no"),
    (Give(FIRST), "no"),
    (Put(FIRST, 6, "3,3"), "yes"),
    (Take(FIRST), "2-2 3-3 4-4 5-5 6-6 to 3"),
    // What comes meanwhile stays behind it.
    (Put(FIRST, 7, "3,30"), "yes"),
    (Give(FIRST), "yes"),
    (Snapshot(FIRST, 7), "2"),
    (Show(FIRST, 6), "1,11;2,22;3,3;"),
    (Show(FIRST, 7), "1,11;2,22;3,33;"),
    (Show(FIRST, 5), ""),
    (Put(FIRST, 8, "8,8"), "yes"),
    (Put(FIRST, 9, "9,9"), "yes"),
    (Take(FIRST), "no"),
    (Put(FIRST, 10, "1,-11"), "yes"),
    (Take(FIRST), "2-6 7-7 8-8 9-9 10-10 to 5"),
    (Give(FIRST), "yes"),
    (Show(FIRST, 10), "1,0;2,22;3,33;8,8;9,9;"),
];

const GONE: Script = &[
    (Put(FIRST, 2, "1,1"), "yes"),
    (Put(FIRST, 3, "1,2"), "yes"),
    (Put(FIRST, 4, "1,3"), "yes"),
    (Put(FIRST, 5, "1,4"), "yes"),
    (Put(FIRST, 6, "1,5"), "yes"),
    (Take(FIRST), "2-2 3-3 4-4 5-5 6-6 to 1"),
    // History came first.
    (Install(FIRST, 4, "1,100"), "yes"),
    (Give(FIRST), "gone"),
    (Show(FIRST, 6), "1,109;"),
    (Put(OTHER, 2, "1,1"), "yes"),
    (Put(OTHER, 3, "1,2"), "yes"),
    (Put(OTHER, 4, "1,3"), "yes"),
    (Put(OTHER, 5, "1,4"), "yes"),
    (Put(OTHER, 6, "1,5"), "yes"),
    (Take(OTHER), "2-2 3-3 4-4 5-5 6-6 to 1"),
    // Another tablet.
    (Give(FIRST), "gone"),
    (Show(OTHER, 6), "1,15;"),
];

const SHADOWS: Script = &[
    (Put(FIRST, 2, "1,5"), "yes"),
    (AddShadow(7, 1, Some(0)), "yes"),
    (Show(SHADOW, 2), ""),
    // The number is taken, the base is to be replaced already, and a shadow is not replaced.
    (AddShadow(8, 1, None), "no"),
    (AddShadow(8, 2, Some(0)), "no"),
    (AddShadow(8, 2, Some(1)), "no"),
    (AddShadow(8, 2, Some(3)), "no"),
    (AddShadow(8, 2, None), "yes"),
    // Both get what is loaded, and the shadow has missed a version.
    (Put(FIRST, 3, "1,7"), "yes"),
    (Put(SHADOW, 3, "1,7"), "yes"),
    (Show(FIRST, 3), "1,12;"),
    (Show(SHADOW, 3), "1,7;"),
    (Install(SHADOW, 2, "1,50"), "yes"),
    (Show(SHADOW, 3), "1,57;"),
    (AddPart, "yes"),
    (Has((1, 2, 0)), "yes"),
    (Has((2, 2, 0)), "yes"),
    // Another job's switch changes nothing of these.
    (Switch(9), "yes"),
    (Show(FIRST, 3), "1,12;"),
    (Switch(7), "yes"),
    (Has(SHADOW), "no"),
    (Show(FIRST, 3), "1,57;"),
    (Show(FIRST, 2), "1,50;"),
    (Has(FURTHER), "yes"),
    (DropShadows(7), "yes"),
    (Has(FURTHER), "yes"),
    (DropShadows(8), "yes"),
    (Has(FURTHER), "no"),
    (Show(FIRST, 3), "1,57;"),
];

const FURTHER_INDEX: Script = &[
    (AddShadow(7, 2, None), "yes"),
    (Put(FURTHER, 2, "2,2"), "yes"),
    (Switch(7), "yes"),
    (Show(FURTHER, 2), "2,2;"),
    (Show(FIRST, 2), ""),
    // It is an index as the base is.
    (DropShadows(7), "yes"),
    (Has(FURTHER), "yes"),
    (AddShadow(8, 3, Some(2)), "yes"),
    (AddShadow(8, 4, Some(0)), "yes"),
    (Put((3, 1, 1), 5, "3,3"), "yes"),
    (Put((4, 1, 1), 5, "4,4"), "yes"),
    (Switch(8), "yes"),
    (Show((2, 1, 1), 5), "3,3;"),
    (Show((0, 1, 1), 5), "4,4;"),
    (Has((3, 0, 0)), "no"),
    (Has((4, 0, 0)), "no"),
];

pub const SCRIPTS: &[Script] = &[
    TABLETS,
    VERSIONS,
    HISTORY,
    COMPACTION,
    GONE,
    SHADOWS,
    FURTHER_INDEX,
];
