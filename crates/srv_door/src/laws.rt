//! A law of served doors, as the contract of a call that does nothing.
ghost use Rattle.std.specs.Prelude.{ℕ, Bool, Option};
ghost use Rattle.fm_model.specs.declared.proto.Proto.{Proto};
ghost use Rattle.dev_traits.specs.Door.{Doorway};
ghost use Rattle.srv_conn.specs.Sight.{Sight};
ghost use Rattle.srv_door.specs.DoorOfOne.{ServesEachLink};
ghost use Rattle.srv_door.specs.DoorTurns.{ServesEach};

use dev_traits::Door;

/// A door of one collection serves each of its links as `serve_link` serves one: from a fresh session, after one look
/// when it came, over what was seen then and from then on. Each look was made for one of the links, with its number.
pub fn a_door_of_one_collection_serves_each_link<D: Door>()
    ensures { (proto : Proto) (still : Bool) (door door' : Option (Doorway D.L)) (sight sight' : Sight)
        (served short : ℕ) → ServesEach D.L.shown proto still door door' sight sight' served short
        → ServesEachLink D.L.shown proto still door door' sight sight' }
{}
