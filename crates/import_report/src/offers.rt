//! What an entry of a search path has for a name.
ghost use Rattle.std.specs.Prelude.{◌≡◌};
ghost use Rattle.import_report.specs.Seeking as spec;

use base_types::Text;
use spec_core::SpecKind;

/// What an entry of the path has for the last part of a name.
#[derive(Drop)]
pub enum Offer {
    /// A regular package or a module.
    Decides(SpecKind),
    /// A portion of a namespace package (PEP 420).
    Portion(Text),
    Nothing,
}

/// What a folder has, and what a file has in its place: a package goes before a module, and a module before a portion.
pub fn either(offer: Offer, found: Option<SpecKind>) -> Offer
    ensures { result ≡ spec.either offer found }
{
    match offer {
        Offer::Decides(kind) => {
            drop(found);
            Offer::Decides(kind)
        }
        Offer::Portion(portion) => match found {
            Some(kind) => {
                drop(portion);
                Offer::Decides(kind)
            }
            None => Offer::Portion(portion),
        },
        Offer::Nothing => match found {
            Some(kind) => Offer::Decides(kind),
            None => Offer::Nothing,
        },
    }
}
