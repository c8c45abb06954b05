// Sources and sinks, in memory and over readers and writers.
ghost use Rattle.std.specs.Prelude.{◌<◌, length};

use crate::texts::text_of;
use case_table::{Call, Table};
use std::alloc::Global;
use std::io::{self, ErrorKind, Read};
use x_base::{MemorySink, MemorySource, NoMemory, Sink, Source, StdSink, StdSource};

/// A reader of which nothing can be read.
#[derive(Drop)]
struct Unreadable;

impl Read for Unreadable {
    fn read(&mut self, _buf: &mut [u8]) -> io::Result<usize> {
        Err(ErrorKind::Other.into())
    }
}

/// How many bytes a call takes; none at a fault.
fn taken<S: Source>(source: &mut S, buf: &mut [u8]) -> Option<u64>
    requires { 0 < length buf.old }
{
    Some(source.take(buf).ok()? as u64)
}

/// How many bytes a call puts; none at a fault.
fn put<K: Sink>(sink: &mut K, bytes: &[u8]) -> Option<u64> {
    Some(sink.put(bytes).ok()? as u64)
}

/// The one number of the call that fails.
fn failing(alloc: Global, call: u32) -> Result<Vec<u32>, NoMemory> {
    let mut calls = Vec::new(alloc);
    calls.push(call).map_err(|_| NoMemory)?;
    Ok(calls)
}

fn source_row(alloc: Global, table: &mut Table) -> Result<(), NoMemory> {
    let calls = failing(alloc, 2)?;
    let mut source = MemorySource::new(text_of(alloc, b"abc")?, calls);
    let mut buf = [0; 2];
    table.row(&[
        Call::option("the first call", taken(&mut source, &mut buf), Some(2)),
        Call::option("the second call", taken(&mut source, &mut buf), None),
        Call::option("the third call", taken(&mut source, &mut buf), Some(1)),
        Call::answer("the bytes", buf == [b'c', b'b'], true),
    ])
}

fn sink_row(alloc: Global, table: &mut Table) -> Result<(), NoMemory> {
    let calls = failing(alloc, 1)?;
    let mut sink = MemorySink::new(alloc, 3, calls)?;
    table.row(&[
        Call::option("the first call", put(&mut sink, b"ab"), None),
        Call::option("the second call", put(&mut sink, b"ab"), Some(2)),
        Call::option("the third call", put(&mut sink, b"cd"), Some(1)),
        Call::option("the fourth call", put(&mut sink, b"d"), None),
        Call::answer("the bytes", sink.bytes() == b"abc".as_slice(), true),
    ])
}

/// A source and a sink in memory, at which a call fails.
pub(crate) fn memory(alloc: Global, table: &mut Table) -> Result<(), NoMemory> {
    source_row(alloc, table)?;
    sink_row(alloc, table)
}

fn reader_row(table: &mut Table) -> Result<(), NoMemory> {
    let bytes: &[u8] = b"abc";
    let mut source = StdSource::new(bytes);
    let mut buf = [0; 2];
    let mut unreadable = StdSource::new(Unreadable);
    table.row(&[
        Call::option("the first call", taken(&mut source, &mut buf), Some(2)),
        Call::answer("the bytes", buf == [b'a', b'b'], true),
        Call::option("the second call", taken(&mut source, &mut buf), Some(1)),
        Call::option("the third call", taken(&mut source, &mut buf), Some(0)),
        Call::option("an unreadable one", taken(&mut unreadable, &mut buf), None),
    ])
}

fn writer_row(table: &mut Table) -> Result<(), NoMemory> {
    let mut room = [0; 2];
    let mut sink = StdSink::new(room.as_mut_slice());
    table.row(&[
        Call::option("the first call", put(&mut sink, b"abc"), Some(2)),
        Call::option("the second call", put(&mut sink, b"c"), None),
    ])
}

/// A source over a reader and a sink over a writer.
pub(crate) fn readers_and_writers(table: &mut Table) -> Result<(), NoMemory> {
    reader_row(table)?;
    writer_row(table)
}
