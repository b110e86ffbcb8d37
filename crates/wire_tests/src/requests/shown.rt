// A request as it is sent, and what it asks for as a line of text.
use csv_load::Options;
use dl_outside::MemorySource;
use dl_values::{ColType, Name, NoMemory};
use http_wire::HttpReader;
use itoa::Buffer;
use load_requests::{EndKey, Request, read_request};
use sql_text::PlainDef;
use std::alloc::Global;
use std::test::Fail;

fn add(line: &mut Vec<u8>, texts: &[&[u8]]) -> Result<(), NoMemory> {
    for text in texts {
        line.extend_from_slice(text)?;
    }
    Ok(())
}

fn add_names(line: &mut Vec<u8>, names: &[Name]) -> Result<(), NoMemory> {
    for name in names {
        add(line, &[b" ", name.bytes()])?;
    }
    Ok(())
}

fn add_number(line: &mut Vec<u8>, number: u64) -> Result<(), NoMemory> {
    add(line, &[Buffer::new().format(number).as_bytes()])
}

fn add_table(line: &mut Vec<u8>, def: &PlainDef) -> Result<(), NoMemory> {
    for column in def.columns.as_slice() {
        let kind: &[u8] = match column.kind {
            ColType::Int => b" INT",
            ColType::BigInt => b" BIGINT",
            _ => b" ?",
        };
        add(line, &[b" ", column.name.bytes(), kind])?;
    }
    add(line, &[b" key"])?;
    if let Some(key) = &def.key {
        add_names(line, key.names.as_slice())?;
    }
    add(line, &[b" hash"])?;
    add_names(line, def.hash.as_slice())?;
    match def.buckets {
        None => Ok(()),
        Some(buckets) => {
            add(line, &[b" buckets "])?;
            add_number(line, buckets)
        }
    }
}

fn add_options(line: &mut Vec<u8>, options: &Options) -> Result<(), NoMemory> {
    add(line, &[b" cut "])?;
    line.push(options.separator)?;
    if options.ratio != 0 {
        add(line, &[b" ratio "])?;
        add_number(line, options.ratio)?;
    }
    let mode: &[u8] = if options.strict { b" strict" } else { b"" };
    add(line, &[mode])
}

fn add_load(
    line: &mut Vec<u8>,
    label: &Option<Name>,
    two_phase: bool,
    options: &Options,
) -> Result<(), NoMemory> {
    match label {
        None => {}
        Some(label) => add(line, &[b" label ", label.bytes()])?,
    }
    add_options(line, options)?;
    let phases: &[u8] = if two_phase { b" two-phase" } else { b"" };
    add(line, &[phases])
}

fn add_end(line: &mut Vec<u8>, db: &Name, key: &EndKey, commit: bool) -> Result<(), NoMemory> {
    let verb: &[u8] = if commit { b"commit " } else { b"abort " };
    add(line, &[verb, db.bytes()])?;
    match key {
        EndKey::Id(id) => {
            add(line, &[b" "])?;
            add_number(line, *id)
        }
        EndKey::Label(label) => add(line, &[b" label ", label.bytes()]),
    }
}

fn add_request(line: &mut Vec<u8>, request: &Request) -> Result<(), NoMemory> {
    match request {
        Request::Unknown => add(line, &[b"unknown"]),
        Request::Load {
            db,
            table,
            label,
            two_phase,
            options,
        } => {
            add(line, &[b"load ", db.bytes(), b" ", table.bytes()])?;
            add_load(line, label, *two_phase, options)
        }
        Request::BadLoad { label, message } => {
            add(line, &[b"bad load: ", message.bytes()])?;
            match label {
                None => Ok(()),
                Some(label) => add(line, &[b" label ", label.bytes()]),
            }
        }
        Request::End { db, key, commit } => add_end(line, db, key, *commit),
        Request::BadEnd { message } => add(line, &[b"bad end: ", message.bytes()]),
        Request::CreateDb { name } => add(line, &[b"database ", name.bytes()]),
        Request::CreateTable { db, table, def } => {
            add(line, &[b"table ", db.bytes(), b" ", table.bytes()])?;
            add_table(line, def)
        }
        Request::Select { db, table } => add(line, &[b"select ", db.bytes(), b" ", table.bytes()]),
        Request::BadStatement { message } => add(line, &[b"bad statement: ", message.bytes()]),
    }
}

// What a request asks for, by the bytes of its head and its body.
pub fn asked(alloc: Global, head: &[u8], body: &[u8]) -> Result<Vec<u8>, Fail> {
    let bytes = Vec::from_slice(alloc, head)?;
    let mut source = MemorySource::new(bytes, 1000, Vec::new(alloc));
    let head = HttpReader::new()
        .next_head(alloc, &mut source)?
        .ok_or("a head")?;
    let request = read_request(alloc, &head, body)?;
    let mut line = Vec::new(alloc);
    add_request(&mut line, &request)?;
    Ok(line)
}
