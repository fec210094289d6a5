//! Natives that are asked by their own objects, and the drops of the objects.

ghost use Rattle.std.specs.Prelude.{◌≡◌, [], IfOk};
ghost use Rattle.spin_code.specs.declared.test.Test.TheVariants as test;

use crate::top::run_with;
use spin_code::{Act, Sincere, Steplist, Test};
use spin_objects::{Guard, Handler, NativeFault, Natives, Outcome};
use spin_outside::MemSink;
use spin_policy::{Authoriser, Policy, Request, Verdict};
use spin_values::{Args, EventType, NoMemory, Params, Text};
use std::alloc::Global;
use std::sync::Arc;
use std::sync::atomic::{AtomicU64, Ordering};
use std::test::Fail;
use std::thread::Threads;

// How often objects were asked and dropped, each time counted by the worth of the object.
#[derive(Drop)]
struct Counts {
    asked: AtomicU64,
    drops: AtomicU64,
}

fn no_counts(alloc: Global) -> Result<Arc<Counts>, Fail> {
    Ok(Arc::new(
        alloc,
        Counts {
            asked: AtomicU64::new(0),
            drops: AtomicU64::new(0),
        },
    )?)
}

// Does nothing, admits everything and denies everything.
struct Counted {
    worth: u64,
    counts: Arc<Counts>,
}

impl Drop for Counted {
    fn drop(self) {
        let Counted { worth, counts } = self;
        counts.drops.fetch_add(worth, Ordering::SeqCst);
    }
}

impl Handler for Counted {
    ghost does = { λ _. record { steps = [] } };

    fn run(&self, _alloc: Global, _args: &mut Args, _out: &mut Outcome) -> Result<(), NoMemory> {
        self.counts.asked.fetch_add(self.worth, Ordering::SeqCst);
        Ok(())
    }
}

impl Guard for Counted {
    ghost asks = { λ _. test.True };

    fn admits(&self, _args: &Args) -> bool {
        self.counts.asked.fetch_add(self.worth, Ordering::SeqCst);
        true
    }
}

impl Authoriser for Counted {
    ghost follows = { λ _. [] };

    fn judge(&self, _request: &Request) -> Verdict {
        self.counts.asked.fetch_add(self.worth, Ordering::SeqCst);
        Verdict::Deny(0)
    }
}

// An object that counts so much here.
fn object_of(worth: u64, counts: &Arc<Counts>) -> Result<Counted, Fail> {
    Ok(Counted {
        worth,
        counts: Arc::try_clone(counts)?,
    })
}

// The signature without parameters.
fn bare(alloc: Global) -> EventType {
    EventType {
        params: Params::new(alloc),
        gives: false,
    }
}

// The natives of these objects, one of each kind, without names.
fn natives_of(
    alloc: Global,
    handler: Box<dyn Handler + Send + Sync>,
    guard: Box<dyn Guard + Send + Sync>,
    authoriser: Box<dyn Authoriser + Send + Sync>,
) -> Result<Natives, Fail>
    requires handler { does handler ≡ record { steps = [] } }
    requires guard { asks guard ≡ test.True }
    requires authoriser { follows authoriser ≡ [] }
    ensures { IfOk result (λ natives. ⟦<Natives as Sincere>⟧.sincere natives) }
{
    let mut natives = Natives::new(alloc);
    let steps = Steplist::new(alloc);
    let name = Text::from_bytes(alloc, b"own")?;
    natives.add_handler(name.copy()?, bare(alloc), Act { steps }, handler)?;
    natives.add_guard(name.copy()?, bare(alloc), Test::True, guard)?;
    natives.add_authoriser(name, Policy::new(alloc), authoriser)?;
    Ok(natives)
}

// A native of each kind: the handler counts 1, the guard 10, and the authoriser 100.
fn three_natives(alloc: Global, counts: &Arc<Counts>) -> Result<Natives, Fail>
    ensures { IfOk result (λ natives. ⟦<Natives as Sincere>⟧.sincere natives) }
{
    let handler: Box<dyn Handler + Send + Sync> = Box::new(alloc, object_of(1, counts)?)?;
    let guard: Box<dyn Guard + Send + Sync> = Box::new(alloc, object_of(10, counts)?)?;
    let authoriser: Box<dyn Authoriser + Send + Sync> = Box::new(alloc, object_of(100, counts)?)?;
    natives_of(alloc, handler, guard, authoriser)
}

// A run of the script with the three natives: its status, and what was written.
fn run_counted<R: Threads + Sync>(
    rt: &R,
    alloc: Global,
    script: &[u8],
    counts: &Arc<Counts>,
) -> Result<(u8, MemSink), Fail> {
    let natives = three_natives(alloc, counts)?;
    Ok(run_with(rt, alloc, script, natives)?)
}

// Scripts, the status of a run of each, what it writes, and what the natives that it asks count.
const RUNS: [(&[u8], u8, &[u8], u64); 3] = [
    (
        b"spin 1\nmodules 2\nevent 0 0 - last\nevent 1 0 - last\nhandler 1 native own\nguard 1 native own\nauthoriser 1 own\nlane 0 install 0 0 1 1 free plain\nlane 0 raise 0\nlane 0 install 1 1 1 0 free plain\n",
        0,
        b"report 1\nsegment 0 at 0\n1 0 8 install ok\n1 0 9 raise run 0 1 = done\n1 0 10 install refused 9 denied 0\nend 1\n",
        111,
    ),
    (b"spin 9\n", 2, b"stop 2 line 1 cause 3\n", 0),
    (
        b"spin 1\nhandler 1 native other\n",
        2,
        b"stop 2 line 2 cause 22\n",
        0,
    ),
];

#[test]
fn each_native_is_asked_and_dropped_once(rt: HostRuntime) -> Result<(), Fail> {
    for (script, wanted, written, asked) in RUNS {
        let counts = no_counts(rt.alloc())?;
        let (status, out) = run_counted(&rt, rt.alloc(), script, &counts)?;
        assert_eq!(rt; status, wanted);
        assert_eq!(rt; out.bytes(), written);
        assert_eq!(rt; counts.asked.load(Ordering::SeqCst), asked);
        assert_eq!(rt; counts.drops.load(Ordering::SeqCst), 111);
    }
    Ok(())
}

// The answer to one more guard of that name.
fn added_guard(
    alloc: Global,
    natives: &mut Natives,
    name: &[u8],
    object: Box<dyn Guard + Send + Sync>,
) -> Result<Result<(), NativeFault>, NoMemory>
    requires object { asks object ≡ test.True }
    requires sincere { ⟦<Natives as Sincere>⟧.sincere natives.old }
{
    let name = Text::from_bytes(alloc, name)?;
    Ok(natives.add_guard(name, bare(alloc), Test::True, object))
}

#[test]
fn a_refused_native_is_dropped_at_once(rt: HostRuntime) -> Result<(), Fail> {
    let alloc = rt.alloc();
    let counts = no_counts(alloc)?;
    let mut natives = three_natives(alloc, &counts)?;
    let object: Box<dyn Guard + Send + Sync> = Box::new(alloc, object_of(1000, &counts)?)?;
    let added = added_guard(alloc, &mut natives, b"own", object)?;
    assert_eq!(rt; added, Err(NativeFault::SameName));
    assert_eq!(rt; counts.drops.load(Ordering::SeqCst), 1000);
    drop(natives);
    assert_eq!(rt; counts.drops.load(Ordering::SeqCst), 1111);
    Ok(())
}
