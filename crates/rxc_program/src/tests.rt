//! Runs of the program over memory: each row of the tables, and inputs that are cut or noise.
use crate::extract_rows::EXTRACT_ROWS;
use crate::pla_rows::PLA_ROWS;
use crate::process_rows::PROCESS_ROWS;
use crate::report_rows::{DRAWN_SIDES, LARGE_REPORT_ROWS, REPORT_ROWS};
use crate::rows::{FAILING, FRONTS, Failing, Input, ONE, Output, ROWS, Row, status_of};
use crate::sim_layout_rows::SIM_LAYOUT_ROWS;
use crate::sim_rows::{REFUSED_SIM_ROWS, SIM_ROWS};
use crate::status::Status;
use crate::tree_rows::TREE_ROWS;
use crate::words::RxWord;
use crate::{exit_code, rxc};
use cif_read::{flatten, read_cif};
use rx_io::{MemSink, MemSource};
use std::alloc::Global;
use std::process::{Abort, ExitCode};
use std::test::Fail;

/// What a run came to: its status, and what the output and the log took.
#[derive(Drop)]
struct Outcome {
    status: Status,
    out: Vec<u8>,
    log: Vec<u8>,
}

/// How the source and the sink fail, and how much the sink takes. A call that fails is named by its number, from 1; 0 is none.
#[derive(Clone, Copy)]
struct Faults {
    read: u32,
    write: u32,
    most: usize,
}

/// Neither fails, and the sink takes each piece whole.
const NO_FAULTS: Faults = Faults {
    read: 0,
    write: 0,
    most: usize::MAX,
};

fn command_words(alloc: Global, words: &[&[u8]]) -> Result<Vec<RxWord>, Fail> {
    let mut list = Vec::new(alloc);
    for word in words {
        list.push(RxWord::new(word.to_vec(alloc)?))?;
    }
    Ok(list)
}

/// Runs the words on the text.
fn run_on(alloc: Global, words: &[&[u8]], text: &[u8], faults: Faults) -> Result<Outcome, Fail> {
    let words = command_words(alloc, words)?;
    let mut src = MemSource::new(text.to_vec(alloc)?, vec![in alloc; faults.read]?);
    let most = faults.most.max(1);
    let mut out = MemSink::new(alloc, 1 << 23, vec![in alloc; faults.write]?, most)?;
    let mut log = MemSink::new(alloc, 100, Vec::new(alloc), 100)?;
    let status = rxc(alloc, words.as_slice(), &mut src, &mut out, &mut log);
    Ok(Outcome {
        status,
        out: out.held().to_vec(alloc)?,
        log: log.held().to_vec(alloc)?,
    })
}

/// The piece so many times.
fn put_repeated(text: &mut Vec<u8>, piece: &[u8], times: u32) -> Result<(), Fail> {
    for _ in 0..times {
        text.extend_from_slice(piece)?;
    }
    Ok(())
}

/// The bytes of an input.
fn bytes_of(alloc: Global, input: &Input) -> Result<Vec<u8>, Fail> {
    let mut text = Vec::new(alloc);
    match input {
        Input::Text(bytes) => text.extend_from_slice(bytes)?,
        Input::Behind(front, rest) => {
            text.extend_from_slice(front)?;
            text.extend_from_slice(rest)?;
        }
        Input::Repeated(front, piece, times, rest) => {
            text.extend_from_slice(front)?;
            put_repeated(&mut text, piece, *times)?;
            text.extend_from_slice(rest)?;
        }
        Input::Compiled(word, trace, specification) => {
            text.extend_from_slice(trace)?;
            let compiled = run_on(alloc, &[word], specification, NO_FAULTS)?;
            text.extend_from_slice(&compiled.out)?;
        }
    }
    Ok(text)
}

/// The text has these bytes somewhere.
fn has(text: &[u8], part: &[u8]) -> bool {
    (0..=text.len()).any(|at| text[at..].starts_with(part))
}

/// The output is as the row says.
fn is_output(out: &[u8], output: &Output) -> bool {
    match output {
        Output::Is(bytes) => out == *bytes,
        Output::Holds(front, part, end) => {
            out.starts_with(front) && has(out, part) && out.ends_with(end)
        }
        Output::Bare(front) => {
            let is_bare = !has(out, b"\npass ") && !has(out, b"\nload ");
            out.starts_with(front) && is_bare && out.ends_with(b"\nend\n")
        }
    }
}

/// Each run of the table comes out as its row says.
fn rows_come_out(rt: &impl Abort, alloc: Global, rows: &[Row]) -> Result<(), Fail> {
    for (number, row) in rows.iter().enumerate() {
        let text = bytes_of(alloc, &row.input)?;
        let run = run_on(alloc, row.words, &text, NO_FAULTS)?;
        assert_eq!(rt; run.status, status_of(&row.end), "row {number}");
        assert!(rt; is_output(&run.out, &row.output), "output of row {number}");
        assert_eq!(rt; run.log.as_slice(), row.log, "log of row {number}");
    }
    Ok(())
}

#[test]
fn runs_come_out(rt: HostRuntime) -> Result<(), Fail> {
    rows_come_out(&rt, rt.alloc(), ROWS)
}

#[test]
fn simulations_come_out(rt: HostRuntime) -> Result<(), Fail> {
    rows_come_out(&rt, rt.alloc(), SIM_ROWS)
}

#[test]
fn refused_simulations_come_out(rt: HostRuntime) -> Result<(), Fail> {
    rows_come_out(&rt, rt.alloc(), REFUSED_SIM_ROWS)
}

#[test]
fn simulations_of_layouts_come_out(rt: HostRuntime) -> Result<(), Fail> {
    rows_come_out(&rt, rt.alloc(), SIM_LAYOUT_ROWS)
}

#[test]
fn arrays_come_out(rt: HostRuntime) -> Result<(), Fail> {
    rows_come_out(&rt, rt.alloc(), PLA_ROWS)
}

#[test]
fn layouts_of_trees_come_out(rt: HostRuntime) -> Result<(), Fail> {
    rows_come_out(&rt, rt.alloc(), TREE_ROWS)
}

#[test]
fn layouts_are_extracted(rt: HostRuntime) -> Result<(), Fail> {
    rows_come_out(&rt, rt.alloc(), EXTRACT_ROWS)
}

#[test]
fn reports_come_out(rt: HostRuntime) -> Result<(), Fail> {
    rows_come_out(&rt, rt.alloc(), REPORT_ROWS)
}

#[test]
fn large_reports_come_out(rt: HostRuntime) -> Result<(), Fail> {
    rows_come_out(&rt, rt.alloc(), LARGE_REPORT_ROWS)
}

/// The width and the height in lambda of the box of whole tiles round all that the text draws, which is not large.
fn drawn_sides(alloc: Global, text: &[u8]) -> Option<(i64, i64)> {
    if text.len() > 1 << 24 {
        return None;
    }
    let drawing = read_cif(alloc, text).ok()?;
    let boxes = flatten(alloc, &drawing).ok()?.boxes;
    let (mut west, mut south) = (i64::MAX, i64::MAX);
    let (mut east, mut north) = (i64::MIN, i64::MIN);
    for b in boxes.as_slice() {
        (west, south) = (west.min(b.x1), south.min(b.y1));
        (east, north) = (east.max(b.x2), north.max(b.y2));
    }
    let width = tiles_up_to(east).wrapping_add(tiles_up_to(west.wrapping_neg()));
    let height = tiles_up_to(north).wrapping_add(tiles_up_to(south.wrapping_neg()));
    Some((width.wrapping_mul(14), height.wrapping_mul(14)))
}

/// So many whole tiles, of 14 lambda, reach up to the edge.
fn tiles_up_to(edge: i64) -> i64 {
    edge.wrapping_add(13).div_euclid(14)
}

/// The box of what a command draws has the sides of its row.
#[test]
fn drawn_sides_come_out(rt: HostRuntime) -> Result<(), Fail> {
    let alloc = rt.alloc();
    for (number, row) in DRAWN_SIDES.iter().enumerate() {
        let text = bytes_of(alloc, &row.input)?;
        let layout = run_on(alloc, &[row.word], &text, NO_FAULTS)?;
        let sides = drawn_sides(alloc, &layout.out);
        assert!(rt; sides.is_some(), "row {number}");
        let (width, height) = sides.unwrap_or((0, 0));
        assert!(rt;
            row.least.0 <= width && width <= row.greatest.0,
            "width of row {number}"
        );
        assert!(rt;
            row.least.1 <= height && height <= row.greatest.1,
            "height of row {number}"
        );
    }
    Ok(())
}

/// The run is refused, and writes nothing.
fn is_refused(alloc: Global, word: &[u8], text: &[u8]) -> Result<bool, Fail> {
    let run = run_on(alloc, &[word], text, NO_FAULTS)?;
    Ok(run.status.exit() == 1 && run.out.is_empty())
}

#[test]
fn fronts_are_refused(rt: HostRuntime) -> Result<(), Fail> {
    for (word, input, spared) in FRONTS {
        let whole = bytes_of(rt.alloc(), input)?;
        for length in 0..whole.len().saturating_sub(*spared) {
            assert!(rt; is_refused(rt.alloc(), word, &whole[..length])?, "{length}");
        }
    }
    Ok(())
}

/// Bytes that look random.
fn noise(alloc: Global, seed: u32, length: u32) -> Result<Vec<u8>, Fail> {
    let mut bytes = Vec::new(alloc);
    let mut state = seed;
    for _ in 0..length {
        state = state.wrapping_mul(1_664_525).wrapping_add(1_013_904_223);
        bytes.push((state >> 24) as u8)?;
    }
    Ok(bytes)
}

#[test]
fn noise_is_refused(rt: HostRuntime) -> Result<(), Fail> {
    for seed in 0..200 {
        let text = noise(rt.alloc(), seed, seed % 64)?;
        assert!(rt; is_refused(rt.alloc(), b"net", &text)?, "{seed}");
        assert!(rt; is_refused(rt.alloc(), b"pla", &text)?, "{seed}");
        assert!(rt; is_refused(rt.alloc(), b"tree", &text)?, "{seed}");
        assert!(rt; is_refused(rt.alloc(), b"sim", &text)?, "{seed}");
        assert!(rt; is_refused(rt.alloc(), b"report", &text)?, "{seed}");
        assert!(rt; is_refused(rt.alloc(), b"extract", &text)?, "{seed}");
    }
    Ok(())
}

/// Lets each read fail in turn: the run reports it and writes nothing.
fn reads_fail(rt: &impl Abort, alloc: Global, row: &Failing, text: &[u8]) -> Result<(), Fail> {
    for read in 1..=row.reads {
        let run = run_on(alloc, &[row.word], text, Faults { read, ..NO_FAULTS })?;
        assert_eq!(rt; run.status, Status::ReadFault);
        assert_eq!(rt; run.out.as_slice(), b"".as_slice());
        assert_eq!(rt; run.log.as_slice(), b"rxc: read fault\n".as_slice());
    }
    let read = row.reads.saturating_add(1);
    let run = run_on(alloc, &[row.word], text, Faults { read, ..NO_FAULTS })?;
    assert_eq!(rt; run.status, Status::Done);
    Ok(())
}

/// Lets each write fail in turn: the run reports it, and what was written before stands.
fn writes_fail(rt: &impl Abort, alloc: Global, row: &Failing, text: &[u8]) -> Result<(), Fail> {
    let whole = run_on(alloc, &[row.word], text, NO_FAULTS)?;
    let most = row.most;
    for write in 1..=row.writes {
        let faults = Faults {
            write,
            most,
            ..NO_FAULTS
        };
        let run = run_on(alloc, &[row.word], text, faults)?;
        let taken = (write as usize - 1).saturating_mul(most);
        assert_eq!(rt; run.status, Status::WriteFault);
        assert_eq!(rt; run.log.as_slice(), b"rxc: write fault\n".as_slice());
        assert!(rt; whole.out.starts_with(run.out.as_slice()));
        assert_eq!(rt; run.out.len(), taken);
    }
    let write = row.writes.saturating_add(1);
    let faults = Faults {
        write,
        most,
        ..NO_FAULTS
    };
    let run = run_on(alloc, &[row.word], text, faults)?;
    assert_eq!(rt; run.status, Status::Done);
    assert_eq!(rt; run.out, whole.out);
    Ok(())
}

#[test]
fn failures_are_reported(rt: HostRuntime) -> Result<(), Fail> {
    for row in FAILING {
        let text = bytes_of(rt.alloc(), &row.input)?;
        reads_fail(&rt, rt.alloc(), row, &text)?;
        writes_fail(&rt, rt.alloc(), row, &text)?;
    }
    Ok(())
}

/// A layout is not begun where a read fails, and is cut off where a write fails, of a hundred bytes at most.
#[test]
fn layouts_are_cut_off(rt: HostRuntime) -> Result<(), Fail> {
    let alloc = rt.alloc();
    for word in [b"pla".as_slice(), b"tree"] {
        let whole = run_on(alloc, &[word], ONE, NO_FAULTS)?;
        for read in 1..=2 {
            let run = run_on(alloc, &[word], ONE, Faults { read, ..NO_FAULTS })?;
            assert_eq!(rt; run.status, Status::ReadFault);
            assert!(rt; run.out.is_empty());
        }
        for (write, taken) in [(1, 0), (2, 100), (9, 800)] {
            let faults = Faults {
                write,
                most: 100,
                ..NO_FAULTS
            };
            let run = run_on(alloc, &[word], ONE, faults)?;
            assert_eq!(rt; run.status, Status::WriteFault);
            assert!(rt; whole.out.starts_with(run.out.as_slice()));
            assert_eq!(rt; run.out.len(), taken);
        }
    }
    Ok(())
}

/// Each run ends the process with the number of its row and its line on the standard error, of which a log without room takes
/// less or nothing.
#[test]
fn runs_end_the_process(rt: HostRuntime) -> Result<(), Fail> {
    let alloc = rt.alloc();
    for (number, row) in PROCESS_ROWS.iter().enumerate() {
        let text = bytes_of(alloc, &row.input)?;
        for room in [100, 7, 0] {
            let words = command_words(alloc, row.words)?;
            let mut src = MemSource::new(text.to_vec(alloc)?, vec![in alloc; row.read]?);
            let mut out = MemSink::new(alloc, 1000, vec![in alloc; row.write]?, 16)?;
            let mut log = MemSink::new(alloc, room, Vec::new(alloc), 100)?;
            let code = exit_code(alloc, words.as_slice(), &mut src, &mut out, &mut log);
            assert_eq!(rt; code, ExitCode::from(row.exit), "row {number}");
            assert_eq!(rt; out.held().len(), row.written, "row {number}");
            assert!(rt; row.line.starts_with(log.held()), "row {number}");
            assert_eq!(rt; log.held().len(), row.line.len().min(room), "row {number}");
        }
    }
    Ok(())
}
