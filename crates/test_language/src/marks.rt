//! Objects with an atom marked, and specifications that can't be pointed.
ghost use Rattle.std.specs.Prelude.{IfOk};
ghost use Rattle.object_store.specs.Tokens.{IsOf};
ghost use Rattle.pointing.specs.Calls.{IsPointingOf};

use crate::objects::shape_of;
use crate::specifications::founded_of;
use class_system::ids::ClassId;
use object_store::shape::Shape;
use pointing::fault::PointFault;
use pointing::pointed::{Marked, Pointed, point};
use std::alloc::{AllocError, Global};
use std::test::Fail;
use well_founded::examination::Founded;

/// The pointing of a specification, which must have one.
fn pointed_of(alloc: Global, founded: &Founded) -> Result<Pointed, Fail>
    ensures { IfOk result (IsPointingOf founded.now) }
{
    match point(alloc, founded) {
        Ok(pointed) => Ok(pointed),
        Err(_fault) => Err(Fail::from("not pointed")),
    }
}

/// The object of the first class with an atom marked, which must be there.
fn marked(pointed: &Pointed, founded: &Founded, shape: &Shape, atom: u64) -> Result<Shape, Fail>
    requires same { IsPointingOf founded.now pointed.now }
{
    let class = ClassId(0);
    let system = founded.system();
    if system.class_count() == 0 || !shape.is_of(system, class)? || atom >= shape.size() {
        return Err(Fail::from("no such atom"));
    }
    Ok(pointed.mark(founded, shape, atom)?)
}

/// The object that a marked one came from, with the number of its atom.
fn unmarked(pointed: &Pointed, founded: &Founded, shape: &Shape) -> Result<Marked, Fail>
    requires same { IsPointingOf founded.now pointed.now }
{
    let class = ClassId(0);
    let system = pointed.system();
    if system.class_count() == 0 || !shape.is_of(system, class)? {
        return Err(Fail::from("no marked object"));
    }
    if shape.tokens().len() > u32::MAX as usize {
        return Err(Fail::from("too many tokens"));
    }
    Ok(pointed.unmark(founded, shape)?)
}

/// Whether a mark is taken off as it was set, after it left the size as it was.
fn is_restored(pointed: &Pointed, founded: &Founded, shape: &Shape, atom: u64) -> Result<bool, Fail>
    requires same { IsPointingOf founded.now pointed.now }
{
    let with_mark = marked(pointed, founded, shape, atom)?;
    let back = unmarked(pointed, founded, &with_mark)?;
    let same_size = with_mark.size() == shape.size();
    Ok(same_size && back.atom == atom && back.shape.tokens() == shape.tokens())
}

/// The tokens of an object with an atom marked, all as they are written.
fn marked_from(alloc: Global, spec: &str, tokens: &str, atom: u64) -> Result<Shape, Fail> {
    let founded = founded_of(alloc, spec)?;
    let pointed = pointed_of(alloc, &founded)?;
    let shape = shape_of(alloc, tokens)?;
    if !is_restored(&pointed, &founded, &shape, atom)? {
        return Err(Fail::from("not restored"));
    }
    marked(&pointed, &founded, &shape, atom)
}

#[test]
fn an_atom_is_marked(rt: HostRuntime) -> Result<(), Fail> {
    for (spec, tokens, atom, want) in [
        (
            "unlabelled;B = E + Z*B*B;",
            "1? . 0? u 0? u",
            0,
            "0? . 0? u 0? u",
        ),
        (
            "unlabelled;B = E + Z*B*B;",
            "1? . 0? u 1? . 0? u 0? u",
            1,
            "2? . 0? u 0? . 0? u 0? u",
        ),
        ("unlabelled;B = Seq(Z);", "4! . . . .", 1, "1! . . 2! . ."),
    ] {
        let got = marked_from(rt.alloc(), spec, tokens, atom)?;
        let want = shape_of(rt.alloc(), want)?;
        assert_eq!(rt; got.tokens(), want.tokens());
    }
    Ok(())
}

/// A specification that can't be pointed, and why.
const REFUSED: &str = "\
labelled;A = Z; => Labelled
labelled;A = Seq>=1(Z); => Labelled
labelled;A = E; => Labelled
unlabelled;A = Seq>=1(Z); => Ranged(ExprId(1))
unlabelled;A = Z*Seq=2(Z)*Seq<=3(Z); => Ranged(ExprId(2))
unlabelled;A = E;B = Seq<=2(Z); => Ranged(ExprId(2))
unlabelled;A = E; => NoAtom
unlabelled;A = E + E*B;B = E;C = Z; => NoAtom";

/// Why a specification can't be pointed; `None` where it can.
fn refusal_of(alloc: Global, founded: &Founded) -> Option<PointFault> {
    match point(alloc, founded) {
        Ok(_pointed) => None,
        Err(fault) => Some(fault),
    }
}

#[test]
fn specifications_are_not_pointed(rt: HostRuntime) -> Result<(), Fail> {
    for line in REFUSED.lines() {
        let (text, want) = line.split_once(" => ").ok_or("no answer")?;
        let founded = founded_of(rt.alloc(), text)?;
        let fault = refusal_of(rt.alloc(), &founded).ok_or("pointed")?;
        let got = format!(in rt.alloc(); "{fault:?}")?;
        assert_eq!(rt; got.as_str(), want);
    }
    Ok(())
}

/// Appends the tokens of a shape `count` times.
fn push_times(shape: &mut Shape, part: &Shape, count: u64) -> Result<(), AllocError> {
    for _ in 0..count {
        for token in part.tokens() {
            shape.push(*token)?;
        }
    }
    Ok(())
}

/// The tokens of a front `count` times, of a middle once, and of a back `count` times.
fn long_shape(
    alloc: Global,
    front: &str,
    middle: &str,
    back: &str,
    count: u64,
) -> Result<Shape, Fail> {
    let mut shape = Shape::new(alloc);
    let front = shape_of(alloc, front)?;
    push_times(&mut shape, &front, count)?;
    let middle = shape_of(alloc, middle)?;
    push_times(&mut shape, &middle, 1)?;
    let back = shape_of(alloc, back)?;
    push_times(&mut shape, &back, count)?;
    Ok(shape)
}

/// Whether an atom of an object of a specification is marked and the mark taken off as it was set.
fn is_restored_of(alloc: Global, spec: &str, shape: &Shape, atom: u64) -> Result<bool, Fail> {
    let founded = founded_of(alloc, spec)?;
    let pointed = pointed_of(alloc, &founded)?;
    is_restored(&pointed, &founded, shape, atom)
}

#[test]
fn long_objects_are_marked(rt: HostRuntime) -> Result<(), Fail> {
    let count = 1_000_000;
    for (spec, front, middle, back) in [
        ("unlabelled;L = E + Z*L;", "1? .", "0? u", ""),
        ("unlabelled;L = E + L*Z;", "1?", "0? u", "."),
        ("unlabelled;L = Seq(Z);", "", "1000000!", "."),
    ] {
        let shape = long_shape(rt.alloc(), front, middle, back, count)?;
        assert_eq!(rt; shape.size(), count);
        assert!(rt; is_restored_of(rt.alloc(), spec, &shape, count / 2)?);
    }
    Ok(())
}
