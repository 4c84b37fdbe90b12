//! The words of replies, by what stands behind them.
ghost use Rattle.std.specs.Prelude.{◌≡◌};
ghost use Rattle.trace_entries.specs.ReplyWords as words;

use trace_fields::lookup;

/// Nothing stands behind these.
#[derive(Clone, Copy, Drop)]
pub enum BareReply {
    Halted,
    Missing,
    Deadlock,
    Woken,
    Lost,
    LostParent,
    Sleeping,
    Fixed,
    Full,
    NotThere,
    NoListing,
    Ready,
    Done,
}

/// A module.
#[derive(Clone, Copy, Drop)]
pub enum ModuleReply {
    Module,
    Cycle,
    Busy,
}

/// A slot.
#[derive(Clone, Copy, Drop)]
pub enum SlotReply {
    Kept,
    Slot,
    Was,
}

/// An epoch.
#[derive(Clone, Copy, Drop)]
pub enum EpochReply {
    Mine,
    Begun,
}

/// The word that a reply begins with, by what stands behind it where several words have that in common.
#[derive(Clone, Copy, Drop)]
pub enum ReplyWord {
    Bare(BareReply),
    OfModule(ModuleReply),
    OfSlot(SlotReply),
    OfEpoch(EpochReply),
    Wait,
    Load,
    Value,
    Unset,
    Names,
    Loaded,
    Path,
    State,
    Yours,
    Listing,
}

const REPLIES: [(&str, ReplyWord); 31] = [
    ("module", ReplyWord::OfModule(ModuleReply::Module)),
    ("cycle", ReplyWord::OfModule(ModuleReply::Cycle)),
    ("halted", ReplyWord::Bare(BareReply::Halted)),
    ("missing", ReplyWord::Bare(BareReply::Missing)),
    ("deadlock", ReplyWord::Bare(BareReply::Deadlock)),
    ("wait", ReplyWord::Wait),
    ("mine", ReplyWord::OfEpoch(EpochReply::Mine)),
    ("woken", ReplyWord::Bare(BareReply::Woken)),
    ("load", ReplyWord::Load),
    ("kept", ReplyWord::OfSlot(SlotReply::Kept)),
    ("lost", ReplyWord::Bare(BareReply::Lost)),
    ("lostparent", ReplyWord::Bare(BareReply::LostParent)),
    ("value", ReplyWord::Value),
    ("unset", ReplyWord::Unset),
    ("sleeping", ReplyWord::Bare(BareReply::Sleeping)),
    ("fixed", ReplyWord::Bare(BareReply::Fixed)),
    ("names", ReplyWord::Names),
    ("loaded", ReplyWord::Loaded),
    ("path", ReplyWord::Path),
    ("full", ReplyWord::Bare(BareReply::Full)),
    ("state", ReplyWord::State),
    ("slot", ReplyWord::OfSlot(SlotReply::Slot)),
    ("was", ReplyWord::OfSlot(SlotReply::Was)),
    ("notthere", ReplyWord::Bare(BareReply::NotThere)),
    ("busy", ReplyWord::OfModule(ModuleReply::Busy)),
    ("begun", ReplyWord::OfEpoch(EpochReply::Begun)),
    ("yours", ReplyWord::Yours),
    ("nolisting", ReplyWord::Bare(BareReply::NoListing)),
    ("listing", ReplyWord::Listing),
    ("ready", ReplyWord::Bare(BareReply::Ready)),
    ("done", ReplyWord::Bare(BareReply::Done)),
];

fn is_new_reply(word: ReplyWord) -> bool
    ensures { result ≡ words.is_new_reply word }
{
    match word {
        ReplyWord::Bare(BareReply::NoListing) => true,
        ReplyWord::Listing => true,
        _ => false,
    }
}

fn if_known(old: bool, word: ReplyWord) -> Option<ReplyWord>
    ensures { result ≡ words.if_known old word }
{
    if old {
        if is_new_reply(word) { None } else { Some(word) }
    } else {
        Some(word)
    }
}

#[tactic(auto, unfolding(crate::specs::ReplyWords::any_reply_word))]
fn any_reply_word(field: &[u8]) -> Option<ReplyWord>
    ensures { result ≡ words.any_reply_word field.now }
{
    lookup(field, &REPLIES)
}

/// The reply that begins with this word; `old` is format 1, which lacks two of them.
#[tactic(auto, unfolding(crate::specs::ReplyWords::reply_word_in))]
pub(crate) fn reply_word_in(old: bool, field: &[u8]) -> Option<ReplyWord>
    ensures { result ≡ words.reply_word_in old field.now }
{
    match any_reply_word(field) {
        Some(word) => if_known(old, word),
        None => None,
    }
}
