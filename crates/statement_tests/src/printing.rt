// Tokens as a table: their text, which is read again as the same tokens.
mod statements;

use dl_values::{Name, NoMemory, Text};
use sql_print::print_tokens;
use sql_tokens::{Sign, TokenKind, tokens};
use std::alloc::Global;
use std::test::Fail;

fn same(left: &TokenKind, right: &TokenKind) -> bool {
    match (left, right) {
        (TokenKind::Word(one), TokenKind::Word(other)) => one == other,
        (TokenKind::Quoted(one), TokenKind::Quoted(other)) => one == other,
        (TokenKind::Int(one), TokenKind::Int(other)) => one == other,
        (TokenKind::Text(one), TokenKind::Text(other)) => one.bytes() == other.bytes(),
        (TokenKind::Sign(one), TokenKind::Sign(other)) => one == other,
        _ => false,
    }
}

// Whether the tokens of a text are these.
fn reads(alloc: Global, text: &str, wanted: &[TokenKind]) -> Result<bool, NoMemory> {
    let found = tokens(alloc, text)?;
    if found.as_slice().len() != wanted.len() {
        return Ok(false);
    }
    for (token, kind) in found.as_slice().iter().zip(wanted.iter()) {
        if !same(&token.kind, kind) {
            return Ok(false);
        }
    }
    Ok(true)
}

fn word(alloc: Global, word: &str) -> Result<TokenKind, NoMemory> {
    Ok(TokenKind::Word(Name::new(alloc, word.as_bytes())?))
}

fn name(alloc: Global, name: &str) -> Result<TokenKind, NoMemory> {
    Ok(TokenKind::Quoted(Name::new(alloc, name.as_bytes())?))
}

fn string(alloc: Global, text: &str) -> Result<TokenKind, NoMemory> {
    Ok(TokenKind::Text(Text::new(alloc, text.as_bytes())?))
}

#[test]
fn one_blank_stands_between_tokens_but_not_at_commas_and_parentheses(
    rt: HostRuntime,
) -> Result<(), Fail> {
    let alloc = rt.alloc();
    let list = vec![in alloc;
        word(alloc, "SELECT")?,
        word(alloc, "COUNT")?,
        TokenKind::Sign(Sign::Open),
        TokenKind::Sign(Sign::Star),
        TokenKind::Sign(Sign::Close),
        TokenKind::Sign(Sign::Comma),
        name(alloc, "a b")?,
        word(alloc, "IN")?,
        TokenKind::Sign(Sign::OpenRange),
        TokenKind::Sign(Sign::Open),
        TokenKind::Sign(Sign::Open),
        TokenKind::Int(1),
        TokenKind::Sign(Sign::Close),
        TokenKind::Sign(Sign::Comma),
        TokenKind::Sign(Sign::Close),
        TokenKind::Sign(Sign::End),
    ]?;
    let text = print_tokens(alloc, list.as_slice())?;
    assert_eq!(rt; text.as_str(), "SELECT COUNT (*), `a b` IN [ ((1),) ;");
    assert!(rt; reads(alloc, text.as_str(), list.as_slice())?);
    Ok(())
}

#[test]
fn strings_are_written_with_their_escapes(rt: HostRuntime) -> Result<(), Fail> {
    let alloc = rt.alloc();
    let table = [
        ("", "''"),
        ("a b", "'a b'"),
        ("it's", r"'it\'s'"),
        ("say \"x\"", "'say \"x\"'"),
        ("a\\", r"'a\\'"),
        ("\\n", r"'\\n'"),
        ("\n\t\r", r"'\n\t\r'"),
        ("\0", "'\0'"),
        ("é\u{10348}", "'é\u{10348}'"),
        ("''", r"'\'\''"),
    ];
    for (bytes, wanted) in table {
        let list = vec![in alloc; string(alloc, bytes)?]?;
        let text = print_tokens(alloc, list.as_slice())?;
        assert_eq!(rt; text.as_str(), wanted);
        assert!(rt; reads(alloc, text.as_str(), list.as_slice())?);
    }
    Ok(())
}

#[test]
fn integers_are_written_in_decimal(rt: HostRuntime) -> Result<(), Fail> {
    let alloc = rt.alloc();
    let table = [
        (0, "0"),
        (7, "7"),
        (-1, "-1"),
        (i64::MAX, "9223372036854775807"),
        (i64::MIN, "-9223372036854775808"),
    ];
    for (value, wanted) in table {
        let list = vec![in alloc; TokenKind::Int(value)]?;
        let text = print_tokens(alloc, list.as_slice())?;
        assert_eq!(rt; text.as_str(), wanted);
        assert!(rt; reads(alloc, text.as_str(), list.as_slice())?);
    }
    Ok(())
}

#[test]
fn each_sign_is_read_again_beside_itself(rt: HostRuntime) -> Result<(), Fail> {
    let alloc = rt.alloc();
    let table = [
        (Sign::Open, "(("),
        (Sign::Close, "))"),
        (Sign::OpenRange, "[ ["),
        (Sign::Comma, ",,"),
        (Sign::End, "; ;"),
        (Sign::Equal, "= ="),
        (Sign::Less, "< <"),
        (Sign::Greater, "> >"),
        (Sign::AtMost, "<= <="),
        (Sign::AtLeast, ">= >="),
        (Sign::Unequal, "<> <>"),
        (Sign::Star, "* *"),
    ];
    for (sign, wanted) in table {
        let list = vec![in alloc; TokenKind::Sign(sign), TokenKind::Sign(sign)]?;
        let text = print_tokens(alloc, list.as_slice())?;
        assert_eq!(rt; text.as_str(), wanted);
        assert!(rt; reads(alloc, text.as_str(), list.as_slice())?);
    }
    Ok(())
}

#[test]
fn names_stand_in_backquotes(rt: HostRuntime) -> Result<(), Fail> {
    let alloc = rt.alloc();
    let list = vec![in alloc;
        name(alloc, "é")?,
        name(alloc, "a'\\b")?,
        name(alloc, "SELECT")?,
        word(alloc, "_x9")?,
    ]?;
    let text = print_tokens(alloc, list.as_slice())?;
    assert_eq!(rt; text.as_str(), r"`é` `a'\b` `SELECT` _x9");
    assert!(rt; reads(alloc, text.as_str(), list.as_slice())?);
    Ok(())
}
