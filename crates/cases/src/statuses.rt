//! Streams that fail, and streams of other types.
use lcc_base::{CountSink, FullSource, MemSink, MemSource};
use lcc_top::{Status, top};
use std::alloc::{AllocError, Global};
use std::test::Fail;

/// The eight rules, with one tree behind them.
const COVERED: &str = "%start stmt
%term ASGNI=1 ADDRLP=2 CNSTI=3 ADDI=4 INDIRI=5
%%
stmt: ASGNI(addr,reg) \"\" 1
addr: ADDRLP \"\" 0
reg: addr \"\" 1
reg: CNSTI \"\" 1
con: CNSTI \"\" 0
reg: ADDI(reg,con) \"\" 1
reg: ADDI(reg,reg) \"\" 1
reg: INDIRI(addr) \"\" 1
%%
ASGNI(ADDRLP,ADDI(INDIRI(ADDRLP),CNSTI))
";

/// One rule, and a tree that it does not cover.
const UNCOVERED: &str = "%term A=1 B=2
%%
s: A \"\"
%%
B
";

/// Assembly that prints two bytes.
const TWO_BYTES: &str = "main:
 move $16,$31
 li $4,72
 jal putchar
 li $4,105
 jal putchar
 j $16
";

const PROGRAM: &str = "int main(void){putchar(65);return 0;}";

/// What a call gave: its status, and what output and report took.
#[derive(Drop)]
struct Ran {
    status: Status,
    output: Vec<u8>,
    report: Vec<u8>,
}

/// The numbers of the reads and writes that fail; 0 is none.
#[derive(Clone, Copy)]
struct Failing {
    read: u64,
    write: u64,
    report: u64,
}

fn words_of(alloc: Global, text: &str) -> Result<Vec<String>, AllocError> {
    let mut words = Vec::new(alloc);
    for word in text.split_whitespace() {
        words.push(String::from_str(alloc, word)?)?;
    }
    Ok(words)
}

fn call(alloc: Global, words: &str, text: &str, failing: Failing) -> Result<Ran, AllocError> {
    let bytes = text.as_bytes().to_vec(alloc)?;
    let mut input = MemSource::new(bytes, vec![in alloc; failing.read]?);
    let mut output = MemSink::new(alloc, vec![in alloc; failing.write]?);
    let mut report = MemSink::new(alloc, vec![in alloc; failing.report]?);
    let words = words_of(alloc, words)?;
    let status = top(alloc, &words, &mut input, &mut output, &mut report);
    Ok(Ran {
        status,
        output: output.taken().to_vec(alloc)?,
        report: report.taken().to_vec(alloc)?,
    })
}

#[test]
fn streams_fail(rt: HostRuntime) -> Result<(), Fail> {
    let alloc = rt.alloc();
    let cover = "lburg cover";
    let simrun = "simrun --target mipseb";
    let rcc = "rcc --target mipseb";
    // The words, the input, which read and writes fail, and what the call gives.
    let table = [
        // The first read fails, and a second one where the first gave all bytes.
        (cover, COVERED, [1, 0, 0], Status::ReadFault, "", ""),
        (cover, COVERED, [2, 0, 0], Status::ReadFault, "", ""),
        (simrun, TWO_BYTES, [2, 0, 0], Status::ReadFault, "", ""),
        (rcc, PROGRAM, [2, 0, 0], Status::ReadFault, "", ""),
        // A write of the output fails.
        (cover, COVERED, [0, 1, 0], Status::WriteFault, "", ""),
        (cover, UNCOVERED, [0, 1, 0], Status::WriteFault, "", ""),
        (rcc, PROGRAM, [0, 1, 0], Status::WriteFault, "", ""),
        (simrun, TWO_BYTES, [0, 1, 0], Status::WriteFault, "", ""),
        // A write of the report fails, when all output is written.
        (
            cover,
            UNCOVERED,
            [0, 0, 1],
            Status::WriteFault,
            "1: no cover\n",
            "",
        ),
        (
            cover,
            UNCOVERED,
            [0, 0, 2],
            Status::WriteFault,
            "1: no cover\n",
            "no cover: ",
        ),
        (simrun, TWO_BYTES, [0, 0, 1], Status::WriteFault, "Hi", ""),
        ("frob", COVERED, [1, 1, 1], Status::WriteFault, "", ""),
    ];
    for (words, text, [read, write, report], status, printed, reported) in table {
        let failing = Failing {
            read,
            write,
            report,
        };
        let ran = call(alloc, words, text, failing)?;
        assert_eq!(rt; ran.status, status);
        assert_eq!(rt; ran.output.as_slice(), printed.as_bytes());
        assert_eq!(rt; ran.report.as_slice(), reported.as_bytes());
    }
    Ok(())
}

#[test]
fn other_streams(rt: HostRuntime) -> Result<(), Fail> {
    let alloc = rt.alloc();
    let mut input = FullSource::new(UNCOVERED.as_bytes().to_vec(alloc)?);
    let mut output = CountSink::new();
    let mut report = CountSink::new();
    let words = words_of(alloc, "lburg cover")?;
    let status = top(alloc, &words, &mut input, &mut output, &mut report);
    assert_eq!(rt; status, Status::NoCover);
    // `1: no cover` and `no cover: 1`, each with its line feed.
    assert_eq!(rt; output.count(), 12);
    assert_eq!(rt; report.count(), 12);
    Ok(())
}
