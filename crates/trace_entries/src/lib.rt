//! The entries of a trace, read from their lines. The words of events and replies are public, since laws speak of them.
#![tactic(auto)]

mod entries;
mod event_words;
mod events;
mod replies;
mod reply_words;
mod take;

pub use entries::entry_in;
pub use event_words::{BareEvent, EventWord, MadeEvent, NamedEvent, NumberedEvent};
pub use events::OutcomeWord;
pub use reply_words::{BareReply, EpochReply, ModuleReply, ReplyWord, SlotReply};
