// The line program: records from standard input, answers to standard output. It reads, feeds and writes; what is answered to which
// bytes is the library's.
#![tactic(auto)]

ghost use Rattle.std.specs.Prelude.{◌≡◌, ◌≢◌, ◌≤◌, ◌<◌, length, take, IfOk, IfErr, OnOk, IfSome};
ghost use Rattle.std.specs.Io.KnownBytes.{ReadConsumes, Appends, IsAtEnd};
ghost use Rattle.std.specs.IoError.{error_kind};
ghost use Rattle.fields.specs.Lines.{lines_of};
ghost use Rattle.lines.specs.Sessions.{answers};
ghost use Rattle.lines.specs.Streams.{world_of};
ghost use Rattle.lines.specs.Inputs.{Fits};
ghost use Rattle.stocktake.specs.Pieces.{stands, begun, Own, Written};

use lines::sessions::{Memory, Session};
use std::io;
use std::io::{Error, ErrorKind, Read, Write};

// Nothing says that an input ends, or that reads are not interrupted for ever, so loops over reads have a number of turns that no
// run uses up.
fn endless() -> Error
    ensures { error_kind result ≡ ErrorKind.TimedOut }
{
    Error::new(ErrorKind::TimedOut, "more reads than can be counted")
}

// One read, made again where a signal interrupts it. Answers how many bytes came: none at the end of the input.
fn get<R: Read>(reader: &mut R, input: &mut [u8]) -> io::Result<usize>
    ensures within { IfOk result (λ n. n ≤ length input.new) }
    ensures bytes { ReadConsumes (R.remaining reader.old) (R.remaining reader.new) result input.new }
    ensures again { IfErr result (λ e. error_kind e ≢ ErrorKind.Interrupted) }
{
    for _ in 0..u64::MAX {
        match reader.read(input) {
            Ok(n) => return Ok(n),
            Err(e) => {
                if e.kind() != ErrorKind::Interrupted {
                    return Err(e);
                }
            }
        }
    }
    Err(endless())
}

// Writes all out, so that it can be read at once.
fn show<W: Write>(text: &[u8], writer: &mut W) -> io::Result<()>
    ensures { OnOk result (Appends (W.contents writer.old) (W.contents writer.new) text.now) }
{
    writer.write_all(text)?;
    writer.flush()
}

// One call of the library: it is fed bytes of the input, or where there are none told of its end. What it puts out is written.
// Answers how many of the bytes were taken. Of a failed write it is not known what the writer has.
fn step<W: Write>(
    session: &mut Session,
    bytes: &[u8],
    line: &mut [u8],
    memory: &mut Memory,
    out: &mut [u8],
    writer: &mut W,
) -> io::Result<usize>
    requires { Fits session.old.held line.old (world_of session.old memory.old) out.old }
    ensures fits { Fits session.new.held line.new (world_of session.new memory.new) out.new }
    ensures within { IfOk result (λ n. n ≤ length bytes.now) }
    ensures some { IfOk result (λ n. 0 < length bytes.now → 0 < n) }
    ensures written { IfOk result (λ n. Written (stands session.old line.old memory.old) (take n bytes.now)
        (stands session.new line.new memory.new) (W.contents writer.old) (W.contents writer.new)) }
{
    if bytes.is_empty() {
        let Ok(end) = session.finish(line, memory, out) else {
            unreachable!()
        };
        show(&out[..end.put], writer)?;
        return Ok(0);
    }
    let Ok(part) = session.feed(bytes, line, memory, out) else {
        unreachable!()
    };
    show(&out[..part.put], writer)?;
    Ok(part.taken)
}

// Takes in all that a read gave, and writes out the answers before it feeds on. No byte is the end, which is one call too.
fn fed<W: Write>(
    session: &mut Session,
    piece: &[u8],
    line: &mut [u8],
    memory: &mut Memory,
    out: &mut [u8],
    writer: &mut W,
) -> io::Result<()>
    requires { Fits session.old.held line.old (world_of session.old memory.old) out.old }
    ensures fits { Fits session.new.held line.new (world_of session.new memory.new) out.new }
    ensures written { OnOk result (Written (stands session.old line.old memory.old) piece.now
        (stands session.new line.new memory.new) (W.contents writer.old) (W.contents writer.new)) }
{
    let mut rest = piece;
    loop {
        let taken = step(session, rest, line, memory, out, writer)?;
        rest = &rest[taken..];
        if rest.is_empty() {
            return Ok(());
        }
    }
}

// Answers the whole input, from no round and nothing held, in lists as long as document 01 has them.
fn run<R: Read, W: Write>(
    reader: &mut R,
    writer: &mut W,
    input: &mut [u8],
    line: &mut [u8],
    memory: &mut Memory,
    out: &mut [u8],
) -> io::Result<()>
    requires own { Own memory.old }
    requires input { 0 < length input.old }
    requires fits { Fits 0 line.old (begun memory.old) out.old }
    ensures end { OnOk result (IsAtEnd (R.remaining reader.new)) }
    ensures answered { OnOk result (IfSome (R.remaining reader.old) (λ bytes.
        Appends (W.contents writer.old) (W.contents writer.new) (answers (begun memory.old) (lines_of bytes)))) }
{
    let mut session = Session::new();
    for _ in 0..u64::MAX {
        let size = get(reader, input)?;
        fed(&mut session, &input[..size], line, memory, out, writer)?;
        if size == 0 {
            return Ok(());
        }
    }
    Err(endless())
}

// Room for bytes. Made in a function of its own, so that main's proof has the length only and not the list.
fn buffer<const N: usize>() -> [u8; N]
    ensures { N ≡ length result }
{
    [0; N]
}

fn main(rt: HostRuntime) -> io::Result<()> {
    let mut list = [0u32; 8192];
    let mut table = [0u8; 512];
    let mut locations = [0u32; 8192];
    let mut terminals = [0u32; 8192];
    let mut scratch = [0u64; 512];
    let mut line = [0u8; 81];
    let mut input = buffer::<65536>();
    // Room for the longest plan and more.
    let mut out = buffer::<400000>();
    let mut memory = Memory {
        list: &mut list,
        table: &mut table,
        locations: &mut locations,
        terminals: &mut terminals,
        scratch: &mut scratch,
    };
    run(
        &mut rt.stdin(),
        &mut rt.stdout(),
        &mut input,
        &mut line,
        &mut memory,
        &mut out,
    )
}
