// Tables of words: the forms, and words that are none.
use command_words::{Columns, Form, FormError, form_of};
use std::alloc::{AllocError, Global};
use std::test::Fail;

fn words_of(alloc: Global, texts: &[&str]) -> Result<Vec<String>, AllocError> {
    let mut words = Vec::new(alloc);
    for text in texts {
        words.push(String::from_str(alloc, text)?)?;
    }
    Ok(words)
}

// The form of words as text: its letter, and each column word behind a comma.
fn told(alloc: Global, texts: &[&str]) -> Result<String, FormError> {
    let words = words_of(alloc, texts)?;
    let mut text = String::new(alloc);
    match form_of(alloc, &words)? {
        Form::Dryrun { model, columns } => {
            text.push(char::from(model))?;
            for word in columns.as_slice() {
                text.push(',')?;
                text.push_str(word)?;
            }
        }
        Form::Run { journal } => {
            text.push_str(if journal.is_none() {
                "run"
            } else {
                "run with a journal"
            })?;
        }
    }
    Ok(text)
}

// Words, and the form that they are.
const FORMS: &[(&[&str], &str)] = &[
    (&["run"], "run"),
    (&["dryrun", "A", "k:INT:KEY"], "A,k:INT:KEY"),
    (&["dryrun", "D", "k:INT:KEY"], "D,k:INT:KEY"),
    (&["dryrun", "U", "k:INT:KEY"], "U,k:INT:KEY"),
    (
        &["dryrun", "A", "k:INT:KEY", "v:BIGINT:SUM"],
        "A,k:INT:KEY,v:BIGINT:SUM",
    ),
    (&["dryrun", "A", "c", "b", "a", "b"], "A,c,b,a,b"),
    (&["dryrun", "A", "", "x", ""], "A,,x,"),
    (&["dryrun", "A", "dryrun", "A"], "A,dryrun,A"),
    (&["dryrun", "A", "Help", "k-", "=", "é"], "A,Help,k-,=,é"),
];

// Words that are no form.
const OTHERS: &[&[&str]] = &[
    &["Run"],
    &["run", ""],
    &["run", "run"],
    &["run", "journal.db"],
    &["run", "help"],
    &["run", "-"],
    &["--", "run"],
    &["runs"],
    &["dryrun", "d", "k:INT:KEY"],
    &["dryrun", "DU", "k:INT:KEY"],
    &[],
    &[""],
    &["dryrun"],
    &["dryrun", "A"],
    &["A", "k:INT:KEY"],
    &["dryrun", "k:INT:KEY"],
    &["Dryrun", "A", "k:INT:KEY"],
    &["dryrun ", "A", "k:INT:KEY"],
    &["dry", "A", "k:INT:KEY"],
    &["", "A", "k:INT:KEY"],
    &["dryrun", "", "k:INT:KEY"],
    &["", "dryrun", "A", "k:INT:KEY"],
    &["dryrun", "a", "k:INT:KEY"],
    &["dryrun", "AA", "k:INT:KEY"],
    &["dryrun", "B", "k:INT:KEY"],
    &["-v", "dryrun", "A", "k:INT:KEY"],
    &["-dryrun", "A", "k:INT:KEY"],
    &["dryrun", "-A", "k:INT:KEY"],
    &["dryrun", "A", "-k:INT:KEY"],
    &["dryrun", "A", "k:INT:KEY", "-"],
    &["--"],
    &["--", "dryrun", "A", "k:INT:KEY"],
    &["dryrun", "--", "A", "k:INT:KEY"],
    &["dryrun", "A", "--", "k:INT:KEY"],
    &["dryrun", "A", "k:INT:KEY", "--"],
    &["help"],
    &["help", "A", "k:INT:KEY"],
    &["dryrun", "A", "k:INT:KEY", "help"],
];

fn forms() -> &'static [(&'static [&'static str], &'static str)] {
    FORMS
}

fn others() -> &'static [&'static [&'static str]] {
    OTHERS
}

#[test]
fn forms_are_told(rt: HostRuntime) -> Result<(), Fail> {
    for (words, text) in forms() {
        let got = told(rt.alloc(), words)?;
        assert_eq!(rt; got.as_str(), *text);
    }
    Ok(())
}

#[test]
fn other_words_are_usage(rt: HostRuntime) -> Result<(), Fail> {
    for words in others() {
        let got = told(rt.alloc(), words);
        assert!(rt; got.is_err_and(|error| error == FormError::Usage));
    }
    Ok(())
}

#[test]
fn words_are_given_back(rt: HostRuntime) -> Result<(), Fail> {
    let words = words_of(rt.alloc(), &["b", "a"])?;
    let back = Columns::new(words).into_words();
    assert_eq!(rt; back.len(), 2);
    assert_eq!(rt; back[0].as_str(), "b");
    assert_eq!(rt; back[1].as_str(), "a");
    Ok(())
}
