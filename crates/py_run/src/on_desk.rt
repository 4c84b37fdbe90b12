//! A desk as a port.
ghost use Rattle.std.specs.Prelude.{◌≡◌};
ghost use Rattle.machine_desk.specs.Sight.{Sight, IsReady, Continues};
ghost use Rattle.drive_account.specs.View.{View};

use drive_account::{Halt, Port};
use machine_desk::Desk;
use machine_events::{Event, Reply};

/// A port on a desk. It takes every event. What it may still become is every port on the same borrow
/// whose desk goes on from this one: so whoever ran a script on it knows that the desk went on.
#[derive(Drop)]
pub struct OnDesk<'a, D: Desk> {
    pub desk: &'a mut D,
}

impl<D: Desk> Port for OnDesk<'_, D> {
    ghost view = { λ p. record {
      number = (D.sight p.desk.now).number;
      mine = (D.sight p.desk.now).mine;
      ready = IsReady (D.sight p.desk.now);
      later = λ q. Continues (D.sight p.desk.now) (D.sight q.desk.now) × (q.desk.ghost_name ≡ p.desk.ghost_name);
      refuses = λ event. ⊥;
    } };

    fn call(&mut self, event: Event) -> Result<Reply, Halt> {
        match self.desk.call(event) {
            Ok(reply) => Ok(reply),
            Err(_) => Err(Halt::NoMemory),
        }
    }

    fn wait(&mut self) -> Result<Reply, Halt> {
        match self.desk.wait() {
            Ok(reply) => Ok(reply),
            Err(_) => Err(Halt::NoMemory),
        }
    }
}
