/// A command of the program.
#[derive(Clone, Copy)]
pub enum Command {
    Run,
    Gen,
    Check,
    Convert,
    Module,
    Report,
    Bundle,
}
