// Refusals, and how texts are escaped: the table of RFC 8259, section 7, in the short forms.
use dl_values::Text;
use reply_json::{render_error, render_refusal, render_refused};
use std::test::Fail;

#[test]
fn a_refusal_tells_its_text(rt: HostRuntime) -> Result<(), Fail> {
    let bytes = render_refusal(rt.alloc(), "NoColumn column=k")?;
    let wanted = r#"{"code":1,"data":"NoColumn column=k","msg":"Error"}"#;
    assert_eq!(rt; bytes.as_slice(), wanted.as_bytes());
    Ok(())
}

#[test]
fn a_refusal_of_a_text_that_is_no_utf8_has_marks_in_it(rt: HostRuntime) -> Result<(), Fail> {
    let alloc = rt.alloc();
    let plain = Text::new(alloc, b"UnknownTable")?;
    let bytes = render_refused(alloc, &plain)?;
    let wanted = r#"{"code":1,"data":"UnknownTable","msg":"Error"}"#;
    assert_eq!(rt; bytes.as_slice(), wanted.as_bytes());
    let broken = Text::new(alloc, b"NoColumn column=a\xff")?;
    let bytes = render_refused(alloc, &broken)?;
    let wanted = "{\"code\":1,\"data\":\"NoColumn column=a\u{fffd}\",\"msg\":\"Error\"}";
    assert_eq!(rt; bytes.as_slice(), wanted.as_bytes());
    Ok(())
}

#[test]
fn texts_are_escaped(rt: HostRuntime) -> Result<(), Fail> {
    let table = [
        ("NotFound", r#"{"error":"NotFound"}"#),
        ("", r#"{"error":""}"#),
        ("\"", r#"{"error":"\""}"#),
        ("\\/", r#"{"error":"\\/"}"#),
        ("\u{8}\u{c}\n\r\t", r#"{"error":"\b\f\n\r\t"}"#),
        ("\u{0}\u{1}\u{1f}", r#"{"error":"\u0000\u0001\u001f"}"#),
        ("\u{7f}é€😀", "{\"error\":\"\u{7f}é€😀\"}"),
    ];
    for (text, wanted) in table {
        let bytes = render_error(rt.alloc(), text)?;
        assert_eq!(rt; bytes.as_slice(), wanted.as_bytes());
    }
    Ok(())
}
