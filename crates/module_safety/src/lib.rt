//! What a module as a program means is safe: what was shown is enough for each next event, whatever the replies.
#![tactic(auto)]

ghost use Rattle.module_safety.specs.Law.{ModuleIsSafe};

/// Whatever is replied, what was shown is enough for all that a module that runs as a program asks for next.
pub fn module_is_safe()
    ensures { ModuleIsSafe }
{}
