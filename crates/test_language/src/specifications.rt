//! Texts of specifications, with answers found by hand from the rules.
//!
//! In the tables a line is a text, where `;` stands for the end of a line and `?` for byte 0, and
//! what is told of it.

use class_system::system::System;
use spec_reader::read_spec::read_spec;
use std::alloc::{AllocError, Global};
use std::test::Fail;
use well_founded::cause::UnfoundedCause;
use well_founded::examination::{Founded, examine};

/// A text of a table as it is read.
pub fn lines_of(alloc: Global, text: &str) -> Result<Vec<u8>, AllocError> {
    let mut lines = Vec::new(alloc);
    for byte in text.as_bytes() {
        let byte = match byte {
            b';' => b'\n',
            b'?' => 0,
            other => *other,
        };
        lines.push(byte)?;
    }
    Ok(lines)
}

/// A specification's canonical text in one line.
fn canonical_line(alloc: Global, system: &System) -> Result<String, Fail> {
    let lines = system.to_text()?;
    let text = str::from_utf8(&lines).ok().ok_or("not text")?;
    Ok(text.replace(alloc, "\n", ";")?)
}

/// Why a text is refused, or its canonical text.
fn told(alloc: Global, bytes: &[u8]) -> Result<String, Fail> {
    match read_spec(alloc, bytes) {
        Err(fault) => Ok(format!(in alloc; "{fault:?}")?),
        Ok(system) => canonical_line(alloc, &system),
    }
}

/// Why a text of a table is refused, or its canonical text.
fn told_text(alloc: Global, text: &str) -> Result<String, Fail> {
    let bytes = lines_of(alloc, text)?;
    told(alloc, &bytes)
}

/// A specification, whether well founded or not.
fn system_of(alloc: Global, text: &str) -> Result<System, Fail> {
    let bytes = lines_of(alloc, text)?;
    Ok(read_spec(alloc, &bytes).ok().ok_or("no specification")?)
}

/// A specification, which must be well founded.
pub fn founded_of(alloc: Global, text: &str) -> Result<Founded, Fail> {
    let system = system_of(alloc, text)?;
    Ok(examine(alloc, system).ok().ok_or("not well founded")?)
}

/// Why a specification isn't well founded; `None` where it is.
fn cause_of(alloc: Global, system: System) -> Option<UnfoundedCause> {
    match examine(alloc, system) {
        Ok(_founded) => None,
        Err(refusal) => Some(refusal.cause),
    }
}

/// Why a specification isn't well founded, or that it is.
fn judge(alloc: Global, text: &str) -> Result<String, Fail> {
    let system = system_of(alloc, text)?;
    match cause_of(alloc, system) {
        None => Ok(format!(in alloc; "founded")?),
        Some(cause) => Ok(format!(in alloc; "{cause:?}")?),
    }
}

const READ: &str = "\
unlabelled;C = Set(Z); => NeedsLabels { line: 2, column: 5 }
unlabelled;C = Z +; => Syntax { line: 2, column: 8 }
unlabelled;C = Z + => Syntax { line: 2, column: 8 }
unlabelled;C = Z*D; => Undefined { line: 2, column: 7 }
unlabelled;C = Z;C = E; => Twice { line: 3 }
unlabelled;C = D;C = E; => Undefined { line: 2, column: 5 }
unlabelled;C = Seq=0(Z); => Syntax { line: 2, column: 9 }
unlabelled;C = Seq>=65(Z); => Syntax { line: 2, column: 10 }
unlabelled;C = E:; => Syntax { line: 2, column: 6 }
unlabelled; => Syntax { line: 2, column: 1 }
 => Syntax { line: 1, column: 1 }
unlabelled;C = ? => NotText { place: 15 }
unlabelled;C = Seq<=3(E); => unlabelled;C = Seq<=3(E);
labelled;C = Cyc>=1(Z); => labelled;C = Cyc(Z);
labelled;C = Cyc=1((Z))*Cyc<=64(Z); => labelled;C = Cyc=1(Z)*Cyc<=64(Z);
unlabelled;C = Seq>=1(Z)*Seq=12(Z); => unlabelled;C = Seq>=1(Z)*Seq=12(Z);
unlabelled;C = E:_1 + Z:2b # two;; => unlabelled;C = E:_1 + Z:2b;
labelled;T = (E+Z:x) + Set>=2(T*U);U = (Z*Z)*Cyc(Z); => labelled;T = (E + Z:x) + Set>=2(T*U);U = (Z*Z)*Cyc(Z);";

#[test]
fn texts_are_refused_or_printed(rt: HostRuntime) -> Result<(), Fail> {
    for line in READ.lines() {
        let (text, want) = line.split_once(" => ").ok_or("no answer")?;
        let got = told_text(rt.alloc(), text)?;
        assert_eq!(rt; got.as_str(), want);
    }
    Ok(())
}

const JUDGED: &str = "\
labelled;A = A; => NoObject(ClassId(0))
labelled;A = Z + A; => ZeroLoop(ClassId(0))
labelled;A = Seq(E); => ZeroPart(ExprId(1))
labelled;A = Z + Cyc(A); => ZeroLoop(ClassId(0))
labelled;A = Z*Set(A); => founded
labelled;A = Seq<=3(E); => founded
labelled;A = Z + Seq=2(A); => founded
labelled;A = Z + Seq=1(A); => ZeroLoop(ClassId(0))
labelled;A = Seq>=2(E); => ZeroPart(ExprId(1))
labelled;A = Cyc>=1(Z); => founded
labelled;A = E + Seq=2(A); => ZeroLoop(ClassId(0))
labelled;A = Z + Set>=2(A); => founded
labelled;A = Set(B);B = E + Z; => ZeroPart(ExprId(1))
labelled;A = Z*Seq(B);B = C;C = Set<=4(Z); => ZeroPart(ExprId(2))
labelled;A = Seq(B)*Set(E);B = E; => ZeroPart(ExprId(1))
labelled;A = Cyc(B);B = E + Z; => ZeroPart(ExprId(1))
labelled;A = Cyc<=3(B);B = E + Z; => founded
labelled;A = Seq(A); => ZeroPart(ExprId(1))
labelled;A = Z*Seq(A); => founded
labelled;A = B;B = A; => NoObject(ClassId(0))
labelled;A = Z + B;B = A; => ZeroLoop(ClassId(0))
labelled;A = Z;B = Z + C;C = E*B; => ZeroLoop(ClassId(1))
labelled;A = Z + B*C;B = E + Z;C = Z + A; => ZeroLoop(ClassId(0))
labelled;A = Z + B*C;B = Z;C = Z + A; => founded
labelled;A = Z*B;B = Z + C;C = Z + B; => ZeroLoop(ClassId(1))
labelled;A = Z + B;B = Z + C;C = Z + E*Seq<=3(A); => ZeroLoop(ClassId(0))
labelled;A = Seq(E);B = B; => NoObject(ClassId(1))
labelled;A = Z + A;B = Seq(E); => ZeroPart(ExprId(4))
labelled;A = Z + A;B = Z*B; => NoObject(ClassId(1))
labelled;A = Z;B = B*C;C = Z*C; => NoObject(ClassId(1))
labelled;A = E + Z*B;B = B + B; => NoObject(ClassId(1))
labelled;A = E + A*A; => ZeroLoop(ClassId(0))
labelled;A = Z + A*A; => founded";

#[test]
fn specifications_are_well_founded_or_not(rt: HostRuntime) -> Result<(), Fail> {
    for line in JUDGED.lines() {
        let (text, want) = line.split_once(" => ").ok_or("no answer")?;
        let got = judge(rt.alloc(), text)?;
        assert_eq!(rt; got.as_str(), want);
    }
    Ok(())
}

/// What is told of a text with a part `count` times in the middle.
fn told_repeated(
    alloc: Global,
    front: &[u8],
    part: &[u8],
    count: usize,
    back: &[u8],
) -> Result<String, Fail> {
    let mut text = Vec::from_slice(alloc, front)?;
    for _ in 0..count {
        text.extend_from_slice(part)?;
    }
    text.extend_from_slice(back)?;
    told(alloc, &text)
}

#[test]
fn long_texts_are_refused(rt: HostRuntime) -> Result<(), Fail> {
    let front = b"unlabelled\nC = ".as_slice();
    for (front, part, count, back, want) in [
        (
            front,
            b"(".as_slice(),
            30_000,
            b"".as_slice(),
            "Syntax { line: 2, column: 30005 }",
        ),
        (
            front,
            b"(",
            30_000,
            b"Z\n",
            "Syntax { line: 2, column: 30006 }",
        ),
        (b"", b" ", 65_537, b"", "TooLong { len: 65537 }"),
        (
            front,
            b"Z+",
            64,
            b"Z\n",
            "Limit(TooManyParts { count: 65 })",
        ),
    ] {
        let got = told_repeated(rt.alloc(), front, part, count, back)?;
        assert_eq!(rt; got.as_str(), want);
    }
    Ok(())
}
