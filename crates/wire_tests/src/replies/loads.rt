// The bodies that answer loads.
use dl_values::{NoMemory, Text};
use reply_json::{LoadReport, render_load};
use std::alloc::Global;
use std::test::Fail;

// A load of three rows that succeeded.
fn success(alloc: Global) -> Result<LoadReport, NoMemory> {
    let label = Text::new(alloc, b"a1")?;
    let message = Text::new(alloc, b"OK")?;
    let status = Text::new(alloc, b"Success")?;
    Ok(LoadReport::Began {
        label,
        bytes: 12,
        message,
        filtered: 0,
        loaded: 3,
        total: 3,
        status,
        txn: 1,
    })
}

// A load under a label that is used.
fn again(alloc: Global) -> Result<LoadReport, NoMemory> {
    let label = Text::new(alloc, b"a1")?;
    let job = Text::new(alloc, b"FINISHED")?;
    let state = Text::new(alloc, b"VISIBLE")?;
    let message = Text::new(alloc, b"Used txn=1 state=VISIBLE")?;
    Ok(LoadReport::Used {
        label,
        job,
        state,
        message,
        txn: 1,
    })
}

#[test]
fn a_load_that_began_has_eight_members(rt: HostRuntime) -> Result<(), Fail> {
    let alloc = rt.alloc();
    let bytes = render_load(alloc, &success(alloc)?)?;
    let wanted =
        r#"{"Label":"a1","LoadBytes":12,"Message":"OK","NumberFilteredRows":0,"NumberLoadedRows":3,"NumberTotalRows":3,"Status":"Success","TxnId":1}"#;
    assert_eq!(rt; bytes.as_slice(), wanted.as_bytes());
    assert_eq!(rt; bytes.as_slice().len(), 137);
    Ok(())
}

#[test]
fn a_used_label_has_its_state(rt: HostRuntime) -> Result<(), Fail> {
    let alloc = rt.alloc();
    let bytes = render_load(alloc, &again(alloc)?)?;
    let wanted =
        r#"{"ExistingJobStatus":"FINISHED","ExistingTxnState":"VISIBLE","Label":"a1","Message":"Used txn=1 state=VISIBLE","Status":"Label Already Exists","TxnId":1}"#;
    assert_eq!(rt; bytes.as_slice(), wanted.as_bytes());
    Ok(())
}

#[test]
fn a_refused_load_has_the_label_that_is_known(rt: HostRuntime) -> Result<(), Fail> {
    let alloc = rt.alloc();
    let label = Some(Text::new(alloc, b"a\xff\"")?);
    let message = Text::new(alloc, b"NoTable name=t")?;
    let bytes = render_load(alloc, &LoadReport::Refused { label, message })?;
    let wanted = r#"{"Label":"a�\"","Message":"NoTable name=t","Status":"Fail"}"#;
    assert_eq!(rt; bytes.as_slice(), wanted.as_bytes());
    let message = Text::new(alloc, b"BadHeader name=label")?;
    let nameless = LoadReport::Refused {
        label: None,
        message,
    };
    let bytes = render_load(alloc, &nameless)?;
    let wanted = r#"{"Message":"BadHeader name=label","Status":"Fail"}"#;
    assert_eq!(rt; bytes.as_slice(), wanted.as_bytes());
    Ok(())
}
