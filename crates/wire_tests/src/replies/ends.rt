// The bodies that answer ends of two-phase loads.
use dl_values::Text;
use reply_json::{EndReport, render_end};
use std::alloc::Global;
use std::test::Fail;

// A load that was committed and published, or not, or aborted; and the body that says so.
type Done = (bool, bool, u64, &'static str);

const DONE: &[Done] = &[
    (
        true,
        true,
        4,
        r#"{"msg":"transaction [4] commit successfully.","status":"Success"}"#,
    ),
    (
        true,
        false,
        18_446_744_073_709_551_615,
        r#"{"msg":"transaction [18446744073709551615] commit successfully.","status":"Publish Timeout"}"#,
    ),
    (
        false,
        false,
        2,
        r#"{"msg":"transaction [2] abort successfully.","status":"Success"}"#,
    ),
];

fn done() -> &'static [Done] {
    DONE
}

fn is_told(alloc: Global, done: &Done) -> Result<bool, Fail> {
    let (commit, published, txn, wanted) = *done;
    let report = EndReport::Done {
        commit,
        published,
        txn,
    };
    let bytes = render_end(alloc, &report)?;
    Ok(bytes.as_slice() == wanted.as_bytes())
}

#[test]
fn an_end_tells_its_transaction(rt: HostRuntime) -> Result<(), Fail> {
    for row in done() {
        assert!(rt; is_told(rt.alloc(), row)?);
    }
    Ok(())
}

#[test]
fn a_refused_end_tells_its_text(rt: HostRuntime) -> Result<(), Fail> {
    let alloc = rt.alloc();
    let message = Text::new(alloc, b"WrongState state=VISIBLE \xff")?;
    let bytes = render_end(alloc, &EndReport::Refused(message))?;
    let wanted = "{\"msg\":\"WrongState state=VISIBLE \u{fffd}\",\"status\":\"Fail\"}";
    assert_eq!(rt; bytes.as_slice(), wanted.as_bytes());
    Ok(())
}
