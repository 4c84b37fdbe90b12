//! The words of events, by what stands behind them.
ghost use Rattle.std.specs.Prelude.{◌≡◌};
ghost use Rattle.trace_entries.specs.EventWords as words;

use trace_fields::lookup;

/// Nothing stands behind these.
#[derive(Clone, Copy, Drop)]
pub enum BareEvent {
    Wake,
    PathGet,
    Invalidate,
}

/// A dotted name.
#[derive(Clone, Copy, Drop)]
pub enum NamedEvent {
    Ask,
    Take,
    Release,
    TabGet,
    TabDel,
}

/// The number of a module or of a load.
#[derive(Clone, Copy, Drop)]
pub enum NumberedEvent {
    Names,
    Source,
    NsGet,
    Rouse,
}

/// A spec and a source.
#[derive(Clone, Copy, Drop)]
pub enum MadeEvent {
    Add,
    AddLazy,
    Main,
}

/// The word that an event begins with, by what stands behind it where several words have that in common.
#[derive(Clone, Copy, Drop)]
pub enum EventWord {
    Bare(BareEvent),
    Named(NamedEvent),
    Numbered(NumberedEvent),
    Made(MadeEvent),
    Finish,
    Get,
    Set,
    Del,
    Print,
    PathAdd,
    DirGet,
    DirSet,
    NsSet,
    TabSet,
    ReloadBegin,
    ReloadTake,
    ReloadEnd,
    End,
}

const EVENTS: [(&str, EventWord); 29] = [
    ("ask", EventWord::Named(NamedEvent::Ask)),
    ("take", EventWord::Named(NamedEvent::Take)),
    ("wake", EventWord::Bare(BareEvent::Wake)),
    ("add", EventWord::Made(MadeEvent::Add)),
    ("finish", EventWord::Finish),
    ("release", EventWord::Named(NamedEvent::Release)),
    ("get", EventWord::Get),
    ("set", EventWord::Set),
    ("del", EventWord::Del),
    ("names", EventWord::Numbered(NumberedEvent::Names)),
    ("source", EventWord::Numbered(NumberedEvent::Source)),
    ("print", EventWord::Print),
    ("pathget", EventWord::Bare(BareEvent::PathGet)),
    ("pathadd", EventWord::PathAdd),
    ("dirget", EventWord::DirGet),
    ("dirset", EventWord::DirSet),
    ("invalidate", EventWord::Bare(BareEvent::Invalidate)),
    ("nsget", EventWord::Numbered(NumberedEvent::NsGet)),
    ("nsset", EventWord::NsSet),
    ("tabget", EventWord::Named(NamedEvent::TabGet)),
    ("tabset", EventWord::TabSet),
    ("tabdel", EventWord::Named(NamedEvent::TabDel)),
    ("reloadbegin", EventWord::ReloadBegin),
    ("reloadtake", EventWord::ReloadTake),
    ("reloadend", EventWord::ReloadEnd),
    ("addlazy", EventWord::Made(MadeEvent::AddLazy)),
    ("rouse", EventWord::Numbered(NumberedEvent::Rouse)),
    ("main", EventWord::Made(MadeEvent::Main)),
    ("end", EventWord::End),
];

fn is_new_event(word: EventWord) -> bool
    ensures { result ≡ words.is_new_event word }
{
    match word {
        EventWord::Made(MadeEvent::Main) => true,
        EventWord::DirGet => true,
        EventWord::DirSet => true,
        _ => false,
    }
}

fn if_known(old: bool, word: EventWord) -> Option<EventWord>
    ensures { result ≡ words.if_known old word }
{
    if old {
        if is_new_event(word) { None } else { Some(word) }
    } else {
        Some(word)
    }
}

#[tactic(auto, unfolding(crate::specs::EventWords::any_event_word))]
fn any_event_word(field: &[u8]) -> Option<EventWord>
    ensures { result ≡ words.any_event_word field.now }
{
    lookup(field, &EVENTS)
}

/// The event that begins with this word; `old` is format 1, which lacks three of them.
#[tactic(auto, unfolding(crate::specs::EventWords::event_word_in))]
pub(crate) fn event_word_in(old: bool, field: &[u8]) -> Option<EventWord>
    ensures { result ≡ words.event_word_in old field.now }
{
    match any_event_word(field) {
        Some(word) => if_known(old, word),
        None => None,
    }
}
