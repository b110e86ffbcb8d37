// Texts as a table: the tokens of each, written in a line.
use dl_values::NoMemory;
use itoa::Buffer;
use sql_tokens::{Sign, TokenKind, tokens};
use std::alloc::Global;
use std::test::Fail;

fn add(line: &mut Vec<u8>, texts: &[&[u8]]) -> Result<(), NoMemory> {
    for text in texts {
        line.extend_from_slice(text)?;
    }
    Ok(())
}

fn spelled(sign: Sign) -> &'static [u8] {
    match sign {
        Sign::Open => b"(",
        Sign::Close => b")",
        Sign::OpenRange => b"[",
        Sign::Comma => b",",
        Sign::End => b";",
        Sign::Equal => b"=",
        Sign::Less => b"<",
        Sign::Greater => b">",
        Sign::AtMost => b"<=",
        Sign::AtLeast => b">=",
        Sign::Unequal => b"<>",
        Sign::Star => b"*",
    }
}

fn add_kind(line: &mut Vec<u8>, kind: &TokenKind) -> Result<(), NoMemory> {
    match kind {
        TokenKind::Word(word) => add(line, &[b"word ", word.bytes()]),
        TokenKind::Quoted(name) => add(line, &[b"name ", name.bytes()]),
        TokenKind::Int(value) => add(line, &[b"int ", Buffer::new().format(*value).as_bytes()]),
        TokenKind::Beyond => add(line, &[b"beyond"]),
        TokenKind::Text(text) => add(line, &[b"text ", text.bytes()]),
        TokenKind::Sign(sign) => add(line, &[spelled(*sign)]),
        TokenKind::Stray => add(line, &[b"stray"]),
    }
}

// The tokens of a text: the place of each, and what it is.
fn read(alloc: Global, text: &str) -> Result<Vec<u8>, NoMemory> {
    let found = tokens(alloc, text)?;
    let mut line = Vec::new(alloc);
    for token in found.as_slice() {
        add(
            &mut line,
            &[Buffer::new().format(token.at).as_bytes(), b" "],
        )?;
        add_kind(&mut line, &token.kind)?;
        add(&mut line, &[b"|"])?;
    }
    Ok(line)
}

#[test]
fn words_names_and_signs_stand_with_their_places(rt: HostRuntime) -> Result<(), Fail> {
    let table = [
        ("", ""),
        (" \t\r\n", ""),
        ("SELECT", "0 word SELECT|"),
        ("  a_1\tB\n_", "2 word a_1|6 word B|8 word _|"),
        ("`a b`c`d`", "0 name a b|5 word c|6 name d|"),
        ("`é`", "0 name é|"),
        ("a`", "0 word a|1 stray|"),
        ("``", "0 stray|"),
        ("`a", "0 stray|"),
        ("()[,;=*", "0 (|1 )|2 [|3 ,|4 ;|5 =|6 *|"),
        ("< > <= >= <> !=", "0 <|2 >|4 <=|7 >=|10 <>|13 <>|"),
        ("<<=>>=<>>!==", "0 <|1 <=|3 >|4 >=|6 <>|8 >|9 <>|11 =|"),
        ("!", "0 stray|"),
        ("a ! b", "0 word a|2 stray|"),
        ("]", "0 stray|"),
        ("a\0b", "0 word a|1 stray|"),
        ("aé b", "0 word a|1 stray|"),
        ("a\u{a0}b", "0 word a|1 stray|"),
        ("a.b", "0 word a|1 stray|"),
    ];
    for (text, wanted) in table {
        let line = read(rt.alloc(), text)?;
        assert_eq!(rt; line.as_slice(), wanted.as_bytes());
    }
    Ok(())
}

#[test]
fn integers_are_told_from_those_beyond_64_bits(rt: HostRuntime) -> Result<(), Fail> {
    let table = [
        ("0", "0 int 0|"),
        ("-0", "0 int 0|"),
        ("007", "0 int 7|"),
        ("5a", "0 int 5|1 word a|"),
        ("a5", "0 word a5|"),
        ("a-5", "0 word a|1 int -5|"),
        ("1-5", "0 int 1|1 int -5|"),
        ("-", "0 stray|"),
        ("- 5", "0 stray|"),
        ("--5", "0 stray|"),
        ("+5", "0 stray|"),
        ("9223372036854775807", "0 int 9223372036854775807|"),
        ("9223372036854775808 ,", "0 beyond|20 ,|"),
        ("-9223372036854775808", "0 int -9223372036854775808|"),
        ("-9223372036854775809", "0 beyond|"),
        ("18446744073709551621", "0 beyond|"),
        ("00000000000000000000000001", "0 int 1|"),
        ("-99999999999999999999999999999999999999999", "0 beyond|"),
    ];
    for (text, wanted) in table {
        let line = read(rt.alloc(), text)?;
        assert_eq!(rt; line.as_slice(), wanted.as_bytes());
    }
    Ok(())
}

#[test]
fn strings_end_at_the_last_quote_that_closes_them(rt: HostRuntime) -> Result<(), Fail> {
    let table = [
        ("''", "0 text |"),
        ("\"\"", "0 text |"),
        ("'a b'c", "0 text a b|5 word c|"),
        ("\"it's\"", "0 text it's|"),
        ("'say \"x\"'", "0 text say \"x\"|"),
        ("'é\0'", "0 text é\0|"),
        ("'a''b'", "0 text a'b|"),
        ("''''", "0 text '|"),
        ("\"a\"\"b\" 'c'", "0 text a\"b|7 text c|"),
        ("'a''b", "0 text a|3 stray|"),
        ("'a''b''c", "0 text a'b|6 stray|"),
        ("'''", "0 text |2 stray|"),
        ("'a''b' 'c", "0 text a'b|7 stray|"),
        ("'", "0 stray|"),
        ("x 'abc", "0 word x|2 stray|"),
        ("'a\"", "0 stray|"),
        (r"'\n\t\r'", "0 text \n\t\r|"),
        (r#"'\\\'\"\a\N\é\%'"#, "0 text \\'\"aNé%|"),
        (r"'a\'", "0 stray|"),
        (r"'a\\'", "0 text a\\|"),
        (r"'a''\'", "0 text a|3 stray|"),
        ("'a\nb'", "0 text a\nb|"),
    ];
    for (text, wanted) in table {
        let line = read(rt.alloc(), text)?;
        assert_eq!(rt; line.as_slice(), wanted.as_bytes());
    }
    Ok(())
}
