// Lists, and what they come to, worked out by hand from the words of the Apache Doris documentation on the models.
use self::Key::{Int, Null, Text};
use dl_values::{AggKind, ColType};
use schema_models::{Model, Role};

#[derive(Clone, Copy, Debug)]
pub enum Key {
    Null,
    Int(i64),
    Text(&'static str),
}

pub type Pair = (Key, Option<i64>);

// A shape of a key column of a type and a BIGINT column of a role, lists of its rows, of which the oldest stands first, how
// many rows they have, and the text of what they come to.
pub struct Case {
    pub model: Model,
    pub key: ColType,
    pub role: Role,
    pub lists: &'static [&'static [Pair]],
    pub stored: usize,
    pub wanted: &'static str,
}

const SUM: Case = Case {
    model: Model::Aggregate,
    key: ColType::Int,
    role: Role::Agg(AggKind::Sum),
    lists: &[],
    stored: 0,
    wanted: "",
};

const REPLACE: Case = Case {
    role: Role::Agg(AggKind::Replace),
    ..SUM
};

const REPLACE_IF_NOT_NULL: Case = Case {
    role: Role::Agg(AggKind::ReplaceIfNotNull),
    ..SUM
};

const UNIQUE: Case = Case {
    model: Model::Unique,
    role: Role::Plain,
    ..SUM
};

const DUPLICATE: Case = Case {
    model: Model::Duplicate,
    role: Role::Plain,
    ..SUM
};

const CASES: &[Case] = &[
    // No lists, and lists without rows.
    SUM,
    Case {
        lists: &[&[], &[]],
        ..SUM
    },
    Case {
        lists: &[&[], &[(Int(1), Some(5))], &[]],
        stored: 1,
        wanted: "1;5;",
        ..SUM
    },
    // Rows of one key in two lists, in one, and in some of three.
    Case {
        lists: &[&[(Int(1), Some(5))], &[(Int(1), Some(7))]],
        stored: 2,
        wanted: "1;12;",
        ..SUM
    },
    Case {
        lists: &[&[(Int(1), Some(5)), (Int(1), Some(7))]],
        stored: 2,
        wanted: "1;12;",
        ..SUM
    },
    Case {
        lists: &[
            &[(Int(1), Some(1)), (Int(4), Some(2))],
            &[(Int(2), Some(3)), (Int(4), Some(4)), (Int(9), Some(5))],
            &[(Int(1), Some(6)), (Int(2), Some(7)), (Int(4), Some(8))],
        ],
        stored: 8,
        wanted: "1;7;2;10;4;14;9;5;",
        ..SUM
    },
    // A null adds nothing, and a sum is one of 64 bits.
    Case {
        lists: &[
            &[(Int(1), None), (Int(2), Some(i64::MAX))],
            &[(Int(1), Some(3)), (Int(2), Some(1))],
            &[(Int(1), None)],
        ],
        stored: 5,
        wanted: "1;3;2;-9223372036854775808;",
        ..SUM
    },
    // The least and the greatest.
    Case {
        role: Role::Agg(AggKind::Min),
        lists: &[
            &[(Int(1), Some(5)), (Int(2), None)],
            &[(Int(1), Some(-7)), (Int(2), Some(4))],
            &[(Int(1), Some(0))],
        ],
        stored: 5,
        wanted: "1;-7;2;4;",
        ..SUM
    },
    Case {
        role: Role::Agg(AggKind::Max),
        lists: &[
            &[(Int(1), Some(5)), (Int(2), None)],
            &[(Int(1), Some(-7)), (Int(2), Some(4))],
            &[(Int(1), Some(0))],
        ],
        stored: 5,
        wanted: "1;5;2;4;",
        ..SUM
    },
    // The later list has the newer row.
    Case {
        lists: &[
            &[(Int(1), Some(5)), (Int(2), Some(6))],
            &[(Int(1), Some(7)), (Int(2), None)],
        ],
        stored: 4,
        wanted: "1;7;2;\\N;",
        ..REPLACE
    },
    Case {
        lists: &[
            &[(Int(1), Some(7)), (Int(2), Some(6))],
            &[(Int(1), Some(5))],
            &[(Int(3), Some(1))],
        ],
        stored: 4,
        wanted: "1;5;2;6;3;1;",
        ..UNIQUE
    },
    // The older cell stays under a null.
    Case {
        lists: &[
            &[(Int(1), Some(5)), (Int(2), None)],
            &[(Int(1), None), (Int(2), None)],
            &[(Int(3), Some(1))],
            &[(Int(3), Some(2))],
        ],
        stored: 6,
        wanted: "1;5;2;\\N;3;2;",
        ..REPLACE_IF_NOT_NULL
    },
    // Repeats stay, over lists and in one, by whole row.
    Case {
        lists: &[
            &[(Int(1), Some(5)), (Int(2), Some(6))],
            &[(Int(1), Some(4)), (Int(1), Some(5)), (Int(1), Some(5))],
            &[(Int(1), None)],
        ],
        stored: 6,
        wanted: "1;\\N;1;4;1;5;1;5;1;5;2;6;",
        ..DUPLICATE
    },
    // Keys that are null come first, and meet.
    Case {
        lists: &[
            &[(Null, Some(1)), (Int(0), Some(2))],
            &[(Null, Some(3))],
            &[(Int(-1), Some(4)), (Int(0), Some(5))],
        ],
        stored: 5,
        wanted: "\\N;4;-1;4;0;7;",
        ..SUM
    },
    // Keys at the ends of BIGINT.
    Case {
        key: ColType::BigInt,
        lists: &[
            &[
                (Null, Some(9)),
                (Int(i64::MIN), Some(1)),
                (Int(i64::MAX), Some(2)),
            ],
            &[(Int(i64::MIN), Some(3)), (Int(i64::MIN + 1), Some(4))],
            &[(Int(i64::MAX - 1), Some(5)), (Int(i64::MAX), Some(6))],
        ],
        stored: 7,
        wanted: "\\N;9;-9223372036854775808;4;-9223372036854775807;4;9223372036854775806;5;9223372036854775807;8;",
        ..SUM
    },
    // Texts that begin with the same seven bytes, or with the same twenty-three.
    Case {
        key: ColType::Varchar(30),
        lists: &[
            &[
                (Text(""), Some(1)),
                (Text("abcdefg"), Some(2)),
                (Text("abcdefgh"), Some(3)),
            ],
            &[
                (Text("abcdef"), Some(4)),
                (Text("abcdefg"), Some(5)),
                (Text("abcdefga"), Some(6)),
            ],
            &[
                (Text("abcdefgabcdefgabcdefgabX"), Some(7)),
                (Text("abcdefgabcdefgabcdefgabY"), Some(8)),
            ],
            &[
                (Text(""), Some(9)),
                (Text("abcdefgabcdefgabcdefgabY"), Some(10)),
            ],
        ],
        stored: 10,
        wanted: ";10;abcdef;4;abcdefg;7;abcdefga;6;abcdefgabcdefgabcdefgabX;7;abcdefgabcdefgabcdefgabY;18;abcdefgh;3;",
        ..SUM
    },
];

pub fn cases() -> &'static [Case] {
    CASES
}
