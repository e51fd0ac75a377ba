//! The collection of made files.
ghost use Rattle.std.specs.Prelude.{◌≡◌, ◌+◌, ◌<◌, ◌≤◌, [], IfOk, OnOk};
ghost use Rattle.srv_load.specs.Made as spec;

use crate::taking::{held_file, made_proto};
use fm_base::{Arc, Fail, NoMemory};
use fm_model::{Op, Proto};
use pub_look::Plain;
use std::alloc::Global;

// File k comes to the collection after those before it.
#[tactic(auto, using(crate::proofs::RoomLemmas::rooms), unfolding(crate::specs::Made::puts_of))]
fn put_file(
    alloc: Global,
    plain: &mut Plain,
    proto: &Proto,
    seed: u32,
    k: u32,
) -> Result<(), NoMemory>
    requires few { k < 400 }
    requires proto { proto.now ≡ spec.load_proto }
    requires same { plain.old.proto ≡ spec.load_proto }
    requires before { plain.old.seen ≡ spec.puts_of seed k }
    ensures put { OnOk result (plain.new.seen ≡ spec.puts_of seed (k + 1)) }
    ensures same { OnOk result (plain.new.proto ≡ spec.load_proto) }
{
    let file = Arc::new(alloc, held_file(alloc, proto, seed, k)?)?;
    match plain.publish(alloc, Op::Put(file)) {
        Ok(_revision) => Ok(()),
        Err(Fail::NoMemory) => Err(NoMemory),
        Err(Fail::Fault(_)) => unreachable!(),
    }
}

// The first files come to the empty collection.
#[tactic(auto, unfolding(crate::specs::Made::puts_of))]
fn put_files(
    alloc: Global,
    plain: &mut Plain,
    proto: &Proto,
    seed: u32,
    count: u32,
) -> Result<(), NoMemory>
    requires few { count ≤ 400 }
    requires proto { proto.now ≡ spec.load_proto }
    requires same { plain.old.proto ≡ spec.load_proto }
    requires empty { plain.old.seen ≡ [] }
    ensures put { OnOk result (plain.new.seen ≡ spec.puts_of seed count) }
    ensures same { OnOk result (plain.new.proto ≡ spec.load_proto) }
{
    for k in 0..count {
        put_file(alloc, plain, proto, seed, k)?;
    }
    Ok(())
}

// The collection of the first files.
pub(crate) fn made_collection(alloc: Global, seed: u32, count: u32) -> Result<Plain, NoMemory>
    requires { count ≤ 400 }
    ensures proto { IfOk result (λ plain. plain.proto ≡ spec.load_proto) }
    ensures puts { IfOk result (λ plain. plain.seen ≡ spec.puts_of seed count) }
{
    let proto = Arc::new(alloc, made_proto(alloc, seed)?)?;
    let mut plain = Plain::open(alloc, proto.share()?)?;
    match put_files(alloc, &mut plain, proto.get(), seed, count) {
        Ok(()) => Ok(plain),
        Err(NoMemory) => {
            drop(plain);
            Err(NoMemory)
        }
    }
}
