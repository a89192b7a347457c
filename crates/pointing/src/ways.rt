//! The way down to an atom of an object.
//!
//! A walk passes the object up to the atom. Each tuple and each list that was begun and isn't done
//! is a level; so the levels at the atom are the way to it. Nothing recurses over an object.
ghost use Rattle.std.specs.Prelude.{◌≡◌, ◌<◌, [], ◌∷◌, length, IfOk, OnOk};
ghost use Rattle.bz_model.specs.Spec.{node_at};
ghost use Rattle.object_store.specs.Seen.{parts_at};
ghost use Rattle.object_store.specs.Tokens.{size_of, IsOf};
ghost use Rattle.pointing.specs.Ways.{way, level_places, finished, level_opened, HasPassed};

use class_system::ids::{ClassId, ExprId};
use class_system::system::System;
use object_store::shape::Shape;
use object_store::visit::Visit;
use object_store::walk::Next;
use std::alloc::{AllocError, Global};
use std::marker::Model;

/// A tuple or a list that isn't done: how many parts it has, and how many of them aren't done.
#[derive(Clone, Copy, Debug)]
pub(crate) struct Level {
    parts: u32,
    left: u32,
}

/// The levels on the way to the object that comes next, the innermost first.
#[derive(Drop)]
struct Levels {
    content: Vec<Level>,
}

impl Model for Levels {
    ghost use Rattle.std.specs.Prelude.{List, reverse};
    ghost use Rattle.pointing.specs.declared.ways.Level.{Level};

    ghost Value = { List Level };

    ghost view = { λ l. reverse l.content.items };
}

impl Levels {
    /// No level.
    fn new(alloc: Global) -> Levels
        ensures { result ≡ [] }
    {
        Levels {
            content: Vec::new(alloc),
        }
    }

    /// Begins an object with so many parts; with none it is done.
    fn open(&mut self, parts: u32) -> Result<(), AllocError>
        ensures opened { OnOk result (self.new ≡ level_opened parts self.old) }
    {
        if parts == 0 {
            self.finish();
            return Ok(());
        }
        self.content.push(Level { parts, left: parts })?;
        Ok(())
    }

    /// An object is done. Takes no memory.
    fn finish(&mut self)
        ensures finished { self.new ≡ finished self.old }
    {
        'levels: while let Some(level) = self.content.pop() {
            if level.left > 1 {
                self.content.push_reserved(Level {
                    parts: level.parts,
                    left: level.left - 1,
                });
                return;
            }
        }
    }

    /// The places at the levels, the outermost first.
    fn places(&self) -> Result<Vec<u32>, AllocError>
        ensures places { IfOk result (λ found. found.items ≡ level_places self.now) }
    {
        let mut found = Vec::new(*self.content.allocator());
        for level in &self.content {
            found.push(level.parts.saturating_sub(level.left))?;
        }
        Ok(found)
    }
}

/// A search for an atom.
#[derive(Drop)]
struct Search {
    levels: Levels,
    before: u64,
}

impl Model for Search {
    ghost use Rattle.pointing.specs.Ways.{Search};

    ghost Value = { Search };

    ghost view = { λ s. record { levels = s.levels; before = s.before } };
}

impl Search {
    /// Passes the visit of a node, and tells whether it was the atom's.
    fn pass(&mut self, system: &System, e: ExprId, visit: Visit) -> Result<bool, AllocError>
        requires in_range { e.0 < length system.now.nodes }
        ensures passed { IfOk result (HasPassed system.now e.0 visit self.old self.new) }
    {
        match visit {
            Visit::Class(_) | Visit::Union(..) => {}
            Visit::Product => self.levels.open(parts_of(system, e))?,
            Visit::Seq(parts, _) | Visit::Set(parts, _) | Visit::Cyc(parts, _) => {
                self.levels.open(parts)?
            }
            Visit::Empty => self.levels.finish(),
            Visit::Atom => {
                if self.before == 0 {
                    return Ok(true);
                }
                self.before -= 1;
                self.levels.finish();
            }
        }
        Ok(false)
    }
}

/// How many parts a node has: at most 64. Takes no memory.
pub(crate) fn parts_of(system: &System, e: ExprId) -> u32
    requires in_range { e.0 < length system.now.nodes }
    ensures exact { result ≡ length (parts_at (node_at system.now e.0)) }
{
    system.known();
    system.node(e).parts().len() as u32
}

/// The way down to an atom of an object of class 0.
pub(crate) fn way_to(
    alloc: Global,
    system: &System,
    shape: &Shape,
    atom: u64,
) -> Result<Vec<u32>, AllocError>
    requires is_of { IsOf system.now 0 shape.now.items }
    requires there { atom < size_of shape.now.items }
    ensures way { IfOk result (λ places. (of : IsOf system.now 0 shape.now.items)
        → places.items ≡ way of.object atom) }
{
    system.known();
    let mut walk = shape.walk(system, ClassId(0))?;
    let mut search = Search {
        levels: Levels::new(alloc),
        before: atom,
    };
    'visits: loop {
        match walk.next()? {
            Next::Node(e, visit) => {
                if search.pass(system, e, visit)? {
                    let places = search.levels.places()?;
                    return Ok(places);
                }
            }
            Next::End => unreachable!(),
            Next::NoObject => unreachable!(),
        }
    }
}
