//! Objects of small specifications, whose texts were found by hand from the rules.
ghost use Rattle.std.specs.Prelude.{IsTrue, option_map};
ghost use Rattle.object_text.specs.Labels.{AreLabelsFor};

use crate::specifications::founded_of;
use class_system::draft::Mode;
use class_system::ids::ClassId;
use labelling::labels::Labels;
use object_store::shape::Shape;
use object_store::token::Token;
use object_text::print::print;
use object_text::read::{ReadObject, read};
use std::alloc::Global;
use std::test::Fail;
use well_founded::examination::Founded;

/// A token: `.` for an atom, `u` for a neutral object, a number with `?` for a part of a union and
/// with `!` for a number of parts.
fn token_of(word: &str) -> Result<Token, Fail> {
    if word == "." {
        return Ok(Token::Dot);
    }
    if word == "u" {
        return Ok(Token::Unit);
    }
    match word.strip_suffix("?") {
        Some(part) => Ok(Token::Pick(part.parse::<u32>().ok().ok_or("no part")?)),
        None => {
            let count = word.strip_suffix("!").ok_or("no token")?;
            Ok(Token::Count(count.parse::<u32>().ok().ok_or("no number")?))
        }
    }
}

/// The tokens as they are written.
pub fn shape_of(alloc: Global, text: &str) -> Result<Shape, Fail> {
    let mut shape = Shape::new(alloc);
    for word in text.split_whitespace() {
        shape.push(token_of(word)?)?;
    }
    Ok(shape)
}

fn labels_of(alloc: Global, text: &str) -> Result<Labels, Fail> {
    let mut labels = Labels::new(alloc);
    for word in text.split_whitespace() {
        labels.push(word.parse::<u64>().ok().ok_or("no label")?)?;
    }
    Ok(labels)
}

/// Whether there are labels exactly in labelled mode, and then one for each atom.
fn has_labels(founded: &Founded, shape: &Shape, labels: Option<&Labels>) -> bool
    ensures { IsTrue result → AreLabelsFor founded.now.mode shape.now.items
        (option_map (λ l. l.now) labels.entry) }
{
    match (founded.system().mode(), labels) {
        (Mode::Unlabelled, None) => true,
        (Mode::Labelled, Some(labels)) => labels.items().len() as u64 == shape.size(),
        _ => false,
    }
}

/// The text of an object of the first class, or `none` where the tokens are of none.
fn printed(
    alloc: Global,
    founded: &Founded,
    shape: &Shape,
    labels: Option<&Labels>,
) -> Result<Vec<u8>, Fail> {
    let class = ClassId(0);
    let system = founded.system();
    if system.class_count() == 0 || !has_labels(founded, shape, labels) {
        return Err(Fail::from("no class, or not the labels that it wants"));
    }
    if !shape.is_of(system, class)? {
        return Ok(Vec::from_slice(alloc, b"none")?);
    }
    Ok(print(alloc, founded, class, shape, labels)?)
}

/// The text of the object with these tokens, and in labelled mode with labels as they are written.
fn printed_with(
    alloc: Global,
    founded: &Founded,
    shape: &Shape,
    labels: &str,
) -> Result<Vec<u8>, Fail> {
    match founded.system().mode() {
        Mode::Unlabelled => printed(alloc, founded, shape, None),
        Mode::Labelled => {
            let labels = labels_of(alloc, labels)?;
            printed(alloc, founded, shape, Some(&labels))
        }
    }
}

/// The text of the object of a specification, with tokens and labels as they are written.
fn printed_of(alloc: Global, spec: &str, tokens: &str, labels: &str) -> Result<Vec<u8>, Fail> {
    let founded = founded_of(alloc, spec)?;
    let shape = shape_of(alloc, tokens)?;
    printed_with(alloc, &founded, &shape, labels)
}

/// What is read as an object of the first class, or the fault.
fn read_back(alloc: Global, founded: &Founded, text: &str) -> Result<String, Fail> {
    let text = text.as_bytes();
    if founded.system().class_count() == 0 || text.len() > 1000 {
        return Err(Fail::from("no class, or a long text"));
    }
    match read(alloc, founded, ClassId(0), text) {
        Err(fault) => Ok(format!(in alloc; "{fault:?}")?),
        Ok(object) => told_object(alloc, &object),
    }
}

/// The tokens and labels of an object.
fn told_object(alloc: Global, object: &ReadObject) -> Result<String, Fail> {
    let tokens = object.shape.tokens();
    let labels = match &object.labels {
        Some(labels) => labels.items(),
        None => &[],
    };
    Ok(format!(in alloc; "{tokens:?} {labels:?}")?)
}

/// What is read as an object of a specification, or the fault.
fn read_of(alloc: Global, spec: &str, text: &str) -> Result<String, Fail> {
    let founded = founded_of(alloc, spec)?;
    read_back(alloc, &founded, text)
}

/// A text up to a mark, and what follows it.
fn cut(text: &str) -> Result<(&str, &str), Fail> {
    Ok(text.split_once(" | ").ok_or("no mark")?)
}

/// A text up to a mark, what stands up to the next, and what follows that.
fn cut_twice(text: &str) -> Result<(&str, &str, &str), Fail> {
    let (first, rest) = cut(text)?;
    let (second, rest) = cut(rest)?;
    Ok((first, second, rest))
}

/// A specification, tokens, labels and the text.
const PRINTED: &str = "\
unlabelled;B = E + Z*B*B; | 1? . 0? u 0? u |  | 1.(Z 0.E 0.E)
unlabelled;P = (E + Z)*(E + Z); | 0? u 1? . |  | (0.E 1.Z)
labelled;T = Z*Set(T); | . 2! . 0! . 1! . 0! | 3 4 1 2 | (Z#3 {(Z#1 {(Z#2 {})}) (Z#4 {})})
labelled;P = Set(Cyc(Z:o)); | 2! 1! . 3! . . . | 2 4 1 3 | {<o#1 o#3 o#4> <o#2>}
unlabelled;B = E + Z*B*B; |  |  | none
unlabelled;B = E + Z*B*B; | 1? . |  | none
unlabelled;B = E + Z*B*B; | 0? u u |  | none
unlabelled;B = E + Z*B*B; | 2? u |  | none
unlabelled;B = E + Z*B*B; | 0? . |  | none
unlabelled;B = E + Z*B*B; | 0! u |  | none";

#[test]
fn objects_are_printed(rt: HostRuntime) -> Result<(), Fail> {
    for line in PRINTED.lines() {
        let (spec, tokens, rest) = cut_twice(line)?;
        let (labels, want) = cut(rest)?;
        let got = printed_of(rt.alloc(), spec, tokens, labels)?;
        assert_eq!(rt; got.as_slice(), want.as_bytes());
    }
    Ok(())
}

/// A specification, a text, and what is read.
const READ: &str = "\
unlabelled;C = Z + Z; | 1.Z | [Pick(1), Dot] []
unlabelled;C = Z + Z; | 2.Z | NotObject { place: 0 }
unlabelled;C = Z + Z; | 1. | NotObject { place: 2 }
unlabelled;C = Z + Z; | 01.Z | NotObject { place: 1 }
unlabelled;C = Z + Z; | 10.Z | NotObject { place: 1 }
unlabelled;C = Z + Z; | 1.Z  | NotObject { place: 3 }
unlabelled;C = Z + Z; |  | NotObject { place: 0 }
unlabelled;C = Seq=2(Z) + Seq>=2(Z) + Seq<=1(Z); | 0.[Z Z] | [Pick(0), Count(2), Dot, Dot] []
unlabelled;C = Seq=2(Z) + Seq>=2(Z) + Seq<=1(Z); | 0.[Z Z Z] | NotObject { place: 6 }
unlabelled;C = Seq=2(Z) + Seq>=2(Z) + Seq<=1(Z); | 0.[Z] | NotObject { place: 4 }
unlabelled;C = Seq=2(Z) + Seq>=2(Z) + Seq<=1(Z); | 0.[] | NotObject { place: 3 }
unlabelled;C = Seq=2(Z) + Seq>=2(Z) + Seq<=1(Z); | 1.[Z Z Z] | [Pick(1), Count(3), Dot, Dot, Dot] []
unlabelled;C = Seq=2(Z) + Seq>=2(Z) + Seq<=1(Z); | 1.[Z] | NotObject { place: 4 }
unlabelled;C = Seq=2(Z) + Seq>=2(Z) + Seq<=1(Z); | 2.[] | [Pick(2), Count(0)] []
unlabelled;C = Seq=2(Z) + Seq>=2(Z) + Seq<=1(Z); | 2.[Z Z] | NotObject { place: 4 }
labelled;P = Set(Cyc(Z)); | {<Z#1 Z#2>} | [Count(1), Count(2), Dot, Dot] [1, 2]
labelled;P = Set(Cyc(Z)); | {<Z#2 Z#1>} | NotCanonical
labelled;P = Set(Cyc(Z)); | {<Z#1 Z#1>} | NotCanonical
labelled;P = Set(Cyc(Z)); | {<Z#1 Z#3>} | NotCanonical
labelled;P = Set(Cyc(Z)); | {<Z#2> <Z#1>} | NotCanonical
labelled;P = Set(Cyc(Z)); | {<Z#1> <Z#2>} | [Count(2), Count(1), Dot, Count(1), Dot] [1, 2]
labelled;P = Set(Cyc(Z)); | {} | [Count(0)] []
labelled;P = Set(Cyc(Z)); | {<>} | NotObject { place: 2 }
labelled;P = Set(Cyc(Z)); | {<Z#0>} | NotObject { place: 4 }
labelled;P = Set(Cyc(Z)); | {<Z#01>} | NotObject { place: 4 }
labelled;P = Set(Cyc(Z)); | {<Z#1000000>} | NotCanonical
labelled;P = Set(Cyc(Z)); | {<Z#1000001>} | NotObject { place: 10 }
labelled;P = Set(Cyc(Z)); | {<Z#10000000>} | NotObject { place: 11 }
labelled;P = Set<=2(E + Z); | {0.E 1.Z#1} | [Count(2), Pick(0), Unit, Pick(1), Dot] [1]
labelled;P = Set<=2(E + Z); | {1.Z#1 0.E} | NotCanonical
labelled;T = Z*Set(T); | (Z#3 {(Z#1 {(Z#2 {})}) (Z#4 {})}) | [Dot, Count(2), Dot, Count(1), Dot, Count(0), Dot, Count(0)] [3, 1, 2, 4]";

#[test]
fn texts_are_read_as_objects(rt: HostRuntime) -> Result<(), Fail> {
    for line in READ.lines() {
        let (spec, text, want) = cut_twice(line)?;
        let got = read_of(rt.alloc(), spec, text)?;
        assert_eq!(rt; got.as_str(), want);
    }
    Ok(())
}
