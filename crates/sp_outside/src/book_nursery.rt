ghost use Rattle.std.specs.Prelude.{◌≡◌, ◌<◌, ◌+◌, ◌++◌, ◌∷◌, [], length, IsTrue, IfOk, OnOk, OnErr};
ghost use Rattle.sp_model.specs.Sayable.{KeepsForms};
ghost use Rattle.sp_outside.specs.ChildState.{new_child, script_of};

use crate::book_child::BookChild;
use crate::child_script::{ChildScript, script_of};
use crate::nursery::Nursery;
use sp_model::Connection;
use sp_value::{Memory, TryCopy};
use sp_world::World;
use sqlite_items::Items;
use std::alloc::Global;
use std::marker::{Model, PhantomData};

/// Makes children that answer from W's book, each by the first script of its connection, and keeps those that came back. A connection
/// without a script has no picks and no faults.
#[derive(Drop)]
pub struct BookNursery<W: World> {
    scripts: Items<ChildScript>,
    made: usize,
    children: Vec<BookChild<W>>,
    of: PhantomData<W>,
}

impl<W: World> Model for BookNursery<W> {
    ghost use Rattle.std.specs.Prelude.{IsTrue, ◌≤◌, vec_len, vec_capacity};
    ghost use Rattle.sp_model.specs.Sayable.{KeepsForms};
    ghost use Rattle.sp_outside.specs.ChildState.{NurseryState};

    ghost Value = { NurseryState };

    ghost view = { λ n. record { scripts = n.scripts; made = n.made; back = n.children.items } };

    ghost invariant = { λ n. IsTrue W.tells × KeepsForms W.book × (vec_len n.children ≤ n.made) × (n.made ≤ vec_capacity n.children) };
}

impl<W: World> BookNursery<W> {
    /// A nursery that made no child yet.
    pub fn new(alloc: Global, scripts: Items<ChildScript>) -> BookNursery<W>
        requires tells { IsTrue W.tells }
        requires sayable { KeepsForms W.book }
        ensures { result ≡ record { scripts = scripts; made = 0; back = [] } }
    {
        BookNursery {
            scripts,
            made: 0,
            children: Vec::new(alloc),
            of: PhantomData,
        }
    }

    /// The children that came back, in order.
    pub fn children(&self) -> &[BookChild<W>]
        ensures { result.now ≡ self.now.back }
    {
        self.children.as_slice()
    }
}

impl<W: World> Nursery<W> for BookNursery<W> {
    type Kid = BookChild<W>;

    ghost made = { λ n. n.made };

    ghost back = { λ n. n.back };

    fn make(&mut self, alloc: Global, connection: &Connection) -> Result<BookChild<W>, Memory>
        ensures child { IfOk result (λ child. child ≡ new_child connection.now.name (script_of self.old.scripts connection.now.name).picks (script_of self.old.scripts connection.now.name).fails) }
        ensures ok { OnOk result (self.new.made ≡ self.old.made + 1) }
        ensures err { OnErr result (self.new.made ≡ self.old.made) }
        ensures back { self.new.back ≡ self.old.back }
        ensures scripts { self.new.scripts ≡ self.old.scripts }
    {
        let missing = self.made + 1 - self.children.len();
        let Ok(()) = self.children.reserve(missing) else {
            return Err(Memory);
        };
        let name = connection.name.copy(alloc)?;
        let script = script_of(alloc, self.scripts.as_slice(), &connection.name)?;
        self.made += 1;
        Ok(BookChild::new(alloc, name, script.picks, script.fails))
    }

    fn take_back(&mut self, child: BookChild<W>)
        requires { length self.old.back < self.old.made }
        ensures back { self.new.back ≡ self.old.back ++ child ∷ [] }
        ensures made { self.new.made ≡ self.old.made }
        ensures scripts { self.new.scripts ≡ self.old.scripts }
    {
        let _ = self.children.push(child);
    }
}
