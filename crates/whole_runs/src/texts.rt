//! Specifications that are refused or printed, by the command `spec`.

use crate::whole::{compare, compare_table};
use std::alloc::{AllocError, Global};
use std::process::Abort;
use std::test::Fail;

fn push_times(text: &mut String, piece: &str, times: u32) -> Result<(), AllocError> {
    for _time in 0..times {
        text.push_str(piece)?;
    }
    Ok(())
}

/// Texts of no specification.
const REFUSED: &str = "\
spec s |  |  | 3 | refused spec syntax line 1 column 1;
spec s | labelled |  | 3 | refused spec syntax line 1 column 9;
spec s | unlabelled; |  | 3 | refused spec syntax line 2 column 1;
spec s | unlabeled;C = Z; |  | 3 | refused spec syntax line 1 column 1;
spec s | unlabelled C = Z; |  | 3 | refused spec syntax line 1 column 12;
spec s | unlabelled;C = Z +; |  | 3 | refused spec syntax line 2 column 8;
spec s | unlabelled;C = Z); |  | 3 | refused spec syntax line 2 column 6;
spec s | unlabelled;C = ?; |  | 3 | refused spec syntax line 2 column 5;
spec s | unlabelled;C = Seq=0(Z); |  | 3 | refused spec syntax line 2 column 9;
spec s | unlabelled;C = Seq>=65(Z); |  | 3 | refused spec syntax line 2 column 10;
spec s | unlabelled;C = \u{1}; |  | 3 | refused spec not text at 15;
spec s | unlabelled;C = Z*D; |  | 3 | refused spec undefined line 2 column 7;
spec s | unlabelled;C = Z;C = E; |  | 3 | refused spec twice line 3;
spec s | unlabelled;C = Set(Z); |  | 3 | refused spec needs labels line 2 column 5;
spec s | unlabelled;C = C; |  | 3 | refused spec no object C;
spec s | unlabelled;C = Z + C; |  | 3 | refused spec zero loop C;
spec s | unlabelled;C = Z + Seq=1(C); |  | 3 | refused spec zero loop C;
spec s | labelled;C = Z + Cyc(C); |  | 3 | refused spec zero loop C;
spec s | unlabelled;C = Seq(E); |  | 3 | refused spec zero part node 1;
spec s | unlabelled;C = Seq>=2(E); |  | 3 | refused spec zero part node 1;";

#[test]
fn texts_that_are_refused(rt: HostRuntime) -> Result<(), Fail> {
    compare_table(&rt, REFUSED)
}

/// Specifications, and their canonical texts.
const CANONICAL: &str = "\
spec s | unlabelled;C = Z |  | 0 | unlabelled;C = Z;end done classes 1 nodes 1;
spec s | unlabelled;C = Seq<=3(E); |  | 0 | unlabelled;C = Seq<=3(E);end done classes 1 nodes 2;
spec s | unlabelled;C = Z + Seq=2(C); |  | 0 | unlabelled;C = Z + Seq=2(C);\
end done classes 1 nodes 4;
spec s | labelled;C = Cyc>=1(Z); |  | 0 | labelled;C = Cyc(Z);end done classes 1 nodes 2;
spec s | labelled;C = Z*Set(C); |  | 0 | labelled;C = Z*Set(C);end done classes 1 nodes 4;
spec s | # trees;unlabelled;;A=((Z)+(E*(Z*Z)))*B;B = E:dot+Z:dot # leaves; |  | 0 | unlabelled;\
A = (Z + E*(Z*Z))*B;B = E:dot + Z:dot;end done classes 2 nodes 12;";

#[test]
fn specifications_in_canonical_form(rt: HostRuntime) -> Result<(), Fail> {
    compare_table(&rt, CANONICAL)
}

/// A text of a front, a part so many times, a middle, and a back as many times.
fn nested(
    alloc: Global,
    front: &str,
    part: &str,
    times: u32,
    middle: &str,
    back: &str,
) -> Result<String, AllocError> {
    let mut text = String::new(alloc);
    text.push_str(front)?;
    push_times(&mut text, part, times)?;
    text.push_str(middle)?;
    push_times(&mut text, back, times)?;
    Ok(text)
}

/// Compares what comes of a specification.
fn compare_spec<R: AllocGlobal + Abort>(
    rt: &R,
    text: String,
    status: u8,
    want: &str,
) -> Result<(), AllocError> {
    compare(rt, "spec s", &text, b"", status, want)
}

/// Compares what comes of a canonical text with the text and what is told behind it.
fn compare_printed<R: AllocGlobal + Abort>(
    rt: &R,
    text: String,
    end: &str,
) -> Result<(), AllocError> {
    let want = format!(in rt.alloc(); "{text}{end}")?;
    compare(rt, "spec s", &text, b"", 0, &want)
}

#[test]
fn texts_at_the_limits(rt: HostRuntime) -> Result<(), Fail> {
    let alloc = rt.alloc();
    let long = nested(alloc, "unlabelled\nC = Z", " ", 65_521, "", "")?;
    compare_spec(&rt, long, 3, "refused spec too long 65537\n")?;
    let want = "unlabelled\nC = Z\nend done classes 1 nodes 1\n";
    let long = nested(alloc, "unlabelled\nC = Z", " ", 65_520, "", "")?;
    compare_spec(&rt, long, 0, want)?;
    let closed = nested(alloc, "unlabelled\nC = ", "(", 30_000, "Z", ")")?;
    compare_spec(&rt, closed, 0, want)?;
    let open = nested(alloc, "unlabelled\nC = ", "(", 30_000, "Z", "")?;
    compare_spec(&rt, open, 3, "refused spec syntax line 2 column 30006\n")?;
    Ok(())
}

#[test]
fn depth_and_parts_at_the_limits(rt: HostRuntime) -> Result<(), Fail> {
    let alloc = rt.alloc();
    let deep = nested(alloc, "unlabelled\nC = ", "Seq(", 63, "Z", ")")?;
    compare_spec(&rt, deep, 3, "refused spec zero part node 2\n")?;
    let deep = nested(alloc, "unlabelled\nC = ", "Seq(", 64, "Z", ")")?;
    compare_spec(&rt, deep, 3, "refused spec too deep 65\n")?;
    compare_printed(&rt, cycles(alloc)?, "end done classes 1 nodes 64\n")?;
    let parts = nested(alloc, "unlabelled\nC = Z", " + Z", 64, "", "")?;
    compare_spec(&rt, parts, 3, "refused spec too many parts 65\n")?;
    Ok(())
}

/// A line of cycles in one another, 63 times.
fn cycles(alloc: Global) -> Result<String, AllocError> {
    let mut text = nested(alloc, "labelled\nC = ", "Cyc(", 63, "Z", ")")?;
    text.push_str("\n")?;
    Ok(text)
}

/// A text of so many classes, each an atom.
fn classes(alloc: Global, count: u32) -> Result<String, Fail> {
    let mut text = String::new(alloc);
    text.push_str("unlabelled\n")?;
    for number in 0..count {
        write!(text, "C{number} = Z\n")?;
    }
    Ok(text)
}

#[test]
fn classes_at_the_limit(rt: HostRuntime) -> Result<(), Fail> {
    let alloc = rt.alloc();
    let want = "refused spec too many classes 65\n";
    compare_spec(&rt, classes(alloc, 65)?, 3, want)?;
    compare_printed(&rt, classes(alloc, 64)?, "end done classes 64 nodes 64\n")?;
    Ok(())
}

/// A text of seven classes of 65 nodes each, and one of one node more than `atoms`.
fn products(alloc: Global, atoms: u32) -> Result<String, Fail> {
    let mut text = String::new(alloc);
    text.push_str("unlabelled\n")?;
    for number in 0..7 {
        write!(text, "P{number} = ")?;
        push_product(&mut text, 63)?;
    }
    text.push_str("L = ")?;
    push_product(&mut text, atoms.saturating_sub(1))?;
    Ok(text)
}

/// Appends a product of one atom more than `times`, and the end of the line.
fn push_product(text: &mut String, times: u32) -> Result<(), AllocError> {
    text.push_str("Z")?;
    push_times(text, "*Z", times)?;
    text.push_str("\n")
}

#[test]
fn nodes_at_the_limit(rt: HostRuntime) -> Result<(), Fail> {
    let alloc = rt.alloc();
    let want = "refused spec too many nodes 513\n";
    compare_spec(&rt, products(alloc, 57)?, 3, want)?;
    compare_printed(&rt, products(alloc, 56)?, "end done classes 8 nodes 512\n")?;
    Ok(())
}
