// Children that answer from a book.

ghost use Rattle.std.specs.Prelude.{◌<◌, ◌≤◌, ◌^◌, length, IfOk};
ghost use Rattle.sp_world.specs.RequestLines.{IsRequestForm};

use crate::world::Scripted;
use sp_model::{Asked, Call, CallKey, Connection};
use sp_outside::{BookChild, BookNursery, Child, ChildScript, Nursery};
use sp_value::{Memory, Text};
use sp_world::{Request, World, request_line};
use sqlite_items::Items;
use std::alloc::Global;
use std::test::Fail;

fn parents(alloc: Global, id: u64, attempt: u32) -> Result<Request, Memory>
    requires { id < 2 ^ 63 }
    ensures { IfOk result IsRequestForm }
{
    let connection = Text::from_str(alloc, "c")?;
    let table = Text::from_str(alloc, "t")?;
    let function = Text::from_str(alloc, "f")?;
    let key = CallKey {
        connection,
        version: 7,
        call: Call::Parents { table },
        attempt,
    };
    Ok(Request::Ask {
        id,
        asked: Asked::Call(key),
        function: Some(function),
    })
}

fn version(alloc: Global, id: u64) -> Result<Request, Memory>
    requires { id < 2 ^ 63 }
    ensures { IfOk result IsRequestForm }
{
    let connection = Text::from_str(alloc, "c")?;
    Ok(Request::Ask {
        id,
        asked: Asked::Version {
            connection,
            tick: 0,
        },
        function: None,
    })
}

fn declare(alloc: Global, id: u64) -> Result<Request, Memory>
    requires { id < 2 ^ 63 }
    ensures { IfOk result IsRequestForm }
{
    let connection = Text::from_str(alloc, "c")?;
    Ok(Request::Ask {
        id,
        asked: Asked::Declare { connection },
        function: None,
    })
}

/// Sends a request, and takes the next line, of whichever call.
fn next_after<W: World, C: Child<W>>(
    alloc: Global,
    child: &mut C,
    request: &Request,
) -> Result<Vec<u8>, Fail>
    requires { IsRequestForm request.now }
{
    let line = request_line(alloc, request)?;
    child.send(&line)?;
    let answer = child.receive(alloc)?;
    Ok(answer)
}

#[test]
#[tactic(auto, using(crate::proofs::Scripted::scripted_forms))]
fn a_child_gives_lines_in_the_order_of_the_picks(rt: HostRuntime) -> Result<(), Fail> {
    let alloc = rt.alloc();
    let picks = Items::from_slice(alloc, &[0, 1, 2, 0, 5])?;
    let name = Text::from_str(alloc, "c")?;
    let mut child = BookChild::<Scripted>::new(alloc, name, picks, Items::new(alloc));
    child.start()?;
    let line = next_after(alloc, &mut child, &parents(alloc, 1, 1)?)?;
    assert!(rt; line.as_slice() == br#"{"id":1,"item":{}}"#.as_slice());
    let line = next_after(alloc, &mut child, &version(alloc, 2)?)?;
    assert!(rt; line.as_slice() == br#"{"id":2,"version":7}"#.as_slice());
    let line = next_after(alloc, &mut child, &declare(alloc, 3)?)?;
    assert!(rt; line.as_slice() == br#"{"id":1,"item":{}}"#.as_slice());
    let line = next_after(alloc, &mut child, &parents(alloc, 4, 2)?)?;
    assert!(rt; line.as_slice() == br#"{"end":true,"id":1}"#.as_slice());
    let line = next_after(alloc, &mut child, &parents(alloc, 5, 1)?)?;
    assert!(rt; line.as_slice() == br#"{"id":5,"item":{}}"#.as_slice());
    assert_eq!(rt; child.sent(), 5);
    assert_eq!(rt; child.given(), 5);
    assert_eq!(rt; child.events().len(), 11);
    Ok(())
}

#[test]
#[tactic(auto, using(crate::proofs::Scripted::scripted_forms))]
fn a_child_that_was_not_started_fails(rt: HostRuntime) -> Result<(), Fail> {
    let alloc = rt.alloc();
    let fails = Items::from_slice(alloc, &[0])?;
    let name = Text::from_str(alloc, "c")?;
    let mut child = BookChild::<Scripted>::new(alloc, name, Items::new(alloc), fails);
    assert!(rt; child.start().is_err());
    assert!(rt; child.send(b"{}").is_err());
    child.start()?;
    child.send(b"{}")?;
    assert_eq!(rt; child.faults(), 2);
    assert_eq!(rt; child.sent(), 2);
    assert_eq!(rt; child.events().len(), 2);
    Ok(())
}

fn raise<W: World, N: Nursery<W>>(
    alloc: Global,
    nursery: &mut N,
    connection: &Connection,
) -> Result<(), Memory>
    requires { length (N.back nursery.old) ≤ N.made nursery.old }
    ensures { length (N.back nursery.new) ≤ N.made nursery.new }
{
    let mut child = nursery.make(alloc, connection)?;
    let _ = child.start();
    nursery.take_back(child);
    Ok(())
}

fn named(alloc: Global, name: &str) -> Result<Connection, Memory> {
    Ok(Connection {
        name: Text::from_str(alloc, name)?,
        plugin: Text::from_str(alloc, "p")?,
        command: Items::new(alloc),
        aggregator: false,
        connections: Items::new(alloc),
        members: Items::new(alloc),
    })
}

#[test]
#[tactic(auto, using(crate::proofs::Scripted::scripted_forms))]
fn a_nursery_has_the_children_that_came_back(rt: HostRuntime) -> Result<(), Fail> {
    let alloc = rt.alloc();
    let mut scripts = Items::new(alloc);
    scripts.push(ChildScript {
        connection: Text::from_str(alloc, "d")?,
        picks: Items::new(alloc),
        fails: Items::from_slice(alloc, &[0])?,
    })?;
    let mut nursery = BookNursery::<Scripted>::new(alloc, scripts);
    raise::<Scripted, BookNursery<Scripted>>(alloc, &mut nursery, &named(alloc, "c")?)?;
    raise::<Scripted, BookNursery<Scripted>>(alloc, &mut nursery, &named(alloc, "d")?)?;
    assert_eq!(rt; nursery.children().len(), 2);
    assert_eq!(rt; nursery.children()[0].faults(), 0);
    assert_eq!(rt; nursery.children()[1].faults(), 1);
    Ok(())
}
