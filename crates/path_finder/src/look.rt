//! The steps of one search.
ghost use Rattle.std.specs.Prelude.{◌≡◌, ◌≤◌, ◌<◌, ◌+◌, length, ℕ, Bool, List, Option, drop, Some, None, IfOk, IfSome, IsErrOf, OnOk, OnErr, ◌++◌, [], true};
ghost use Rattle.std.specs.Option.{ForSome, option_copied};
ghost use Rattle.base_types.specs.Path.{joined};
ghost use Rattle.spec_core.specs.Names.{tail_of};
ghost use Rattle.spec_core.specs.declared.spec.SpecKind.{SpecKind};
ghost use Rattle.tree_files.specs.Count.{Rose};
ghost use Rattle.tree_files.specs.Files.{Files, IsDirAt, has_name};
ghost use Rattle.path_finder.specs.Entries.{entry_path, text_of};
ghost use Rattle.path_finder.specs.Find.{folder, first_file, package_in, module_in, answer};
ghost use Rattle.path_finder.specs.Steps as step;
ghost use Rattle.path_finder.specs.Steps.{Stamps, Lists, Reads};
ghost use Rattle.path_finder.specs.Has.{settled};
ghost use Rattle.path_finder.specs.declared.words.Probe.{Probe};
ghost use Rattle.path_finder.specs.Looking.{awaits, is_quiet, does, input_kind, want_kind, behind, means, means_at, wants, Suits, CountsLists, Came, reply_of, reply_in, Finds};

use crate::probes::{Has, probed};
use crate::sought::Sought;
use crate::stamps::stamp_at;
use crate::words::{Found, LookIn, LookWant, Probe};
use base_types::{Exact, Listing, NoMemory, Text, Texts, TreePath};
use py_value::{Items, Value};
use spec_core::{Dotted, Spec, SpecKind};
use std::mem;
use tree_files::{Stamp, Tree, TreeFault};

/// What a search waits for, and in which directory.
#[derive(Drop)]
pub enum Stage {
    /// Its start.
    Fresh,
    /// The payment for an entry that is passed over.
    Passing,
    /// The payment for the stamp of an entry.
    Stamping(TreePath),
    /// What the kept listing of the directory says, which has this time.
    Asking {
        dir: TreePath,
        time: u64,
    },
    /// The payment for its listing.
    Listing {
        dir: TreePath,
        time: u64,
    },
    /// That the listing is kept, which has the part, or the part with `.py`.
    Keeping {
        dir: TreePath,
        bare: bool,
        file: bool,
    },
    /// The payment for the probes of the names.
    Probing {
        dir: TreePath,
        bare: bool,
        file: bool,
    },
    /// Nothing: the search is over, or was refused.
    Over,
}

/// One search for a name on a path, step by step.
pub struct Look {
    sought: Sought,
    path: Items,
    /// The entry that comes next.
    at: usize,
    /// What was found of a namespace package so far.
    portions: Texts,
    stage: Stage,
}

/// The text that an entry is, if it is one.
fn text_of(entry: &Value) -> Option<&Text>
    ensures { option_copied result ≡ text_of entry.now }
{
    match entry {
        Value::Text(text) => Some(text),
        _ => None,
    }
}

/// The tree path that an entry is. Only a text can be one.
fn path_of(entry: &Value) -> Result<Option<TreePath>, NoMemory>
    ensures { IfOk result (λ it. it ≡ entry_path entry.now) }
{
    match text_of(entry) {
        Some(text) => TreePath::read(text),
        None => Ok(None),
    }
}

/// Whether a name is among the names of a listing.
fn has_name(names: &Texts, name: &Text) -> bool
    ensures { result ≡ has_name names.now name.now }
{
    names.as_slice().iter().any(|other| other == name)
}

impl Look {
    /// A search for a name on a path.
    pub fn start(name: Dotted, path: Items) -> Result<Look, NoMemory>
        ensures sought { IfOk result (λ it. it.sought.name ≡ name) }
        ensures path { IfOk result (λ it. it.path ≡ path) }
        ensures stage { IfOk result (λ it. it.stage ≡ Stage.Fresh) }
        ensures means { IfOk result (λ it. means it LookIn.Start ≡ step.searches name path []) }
        ensures came { IfOk result (λ it. (f : Files) → Came f it []) }
    {
        let sought = Sought::of(name)?;
        let portions = Texts::new(path.alloc());
        Ok(Look {
            sought,
            path,
            at: 0,
            portions,
            stage: Stage::Fresh,
        })
    }

    /// The search waits at a stage.
    fn wait_at(&mut self, stage: Stage)
        ensures is { self.new ≡ record self.old { stage = stage } }
        ensures goes { means self.new ≡ means_at self.old stage }
    {
        self.stage = stage;
    }

    /// What is found where no entry decides.
    fn found(&mut self) -> Option<Found>
        ensures found { result ≡ answer self.old.sought.name [] self.old.portions }
        ensures same { (self.new.sought ≡ self.old.sought) × (self.new.path ≡ self.old.path) }
        ensures stage { self.new.stage ≡ self.old.stage }
    {
        if self.portions.is_empty() {
            return None;
        }
        let none = Texts::new(self.path.alloc());
        Some(Found::Portions(mem::replace(&mut self.portions, none)))
    }

    /// The search passes on to the entry behind the one that it stands at.
    fn step_past(&mut self)
        requires { self.old.at < length self.old.path }
        ensures { self.new ≡ record self.old { at = self.old.at + 1 } }
    {
        let _entries = self.path.len();
        self.at += 1;
    }

    /// The search comes to the next entry, or to its end.
    fn enter(&mut self) -> Result<LookWant, NoMemory>
        ensures goes { IfOk result (λ want. behind self.old self.old.portions ≡ wants want (means self.new)) }
        ensures awaits { IfOk result (λ want. awaits self.new.stage ≡ want_kind want) }
        ensures suits { OnOk result ((f : Files) → Suits self.new.stage f) }
        ensures quiet { IfOk result is_quiet }
        ensures same { (self.new.sought ≡ self.old.sought) × (self.new.path ≡ self.old.path) }
        ensures refused { OnErr result (self.new.stage ≡ self.old.stage) }
    {
        match self.path.get(self.at) {
            None => {
                let found = self.found();
                self.wait_at(Stage::Over);
                Ok(LookWant::Done(found))
            }
            Some(entry) => {
                let path = path_of(entry)?;
                self.step_past();
                Ok(self.pay(path))
            }
        }
    }

    /// The payment for an entry.
    fn pay(&mut self, path: Option<TreePath>) -> LookWant
        ensures goes { step.enters self.old.sought.name path self.old.portions (behind self.old)
            ≡ wants result (means self.new) }
        ensures awaits { awaits self.new.stage ≡ want_kind result }
        ensures suits { (f : Files) → Suits self.new.stage f }
        ensures quiet { is_quiet result }
        ensures same { (self.new.sought ≡ self.old.sought) × (self.new.path ≡ self.old.path) }
    {
        match path {
            None => {
                self.wait_at(Stage::Passing);
                LookWant::Pay { tree: false }
            }
            Some(dir) => {
                self.wait_at(Stage::Stamping(dir));
                LookWant::Pay { tree: true }
            }
        }
    }

    /// An entry is looked at: only a directory is searched.
    fn stamp<T: Tree>(&mut self, tree: &mut T, dir: TreePath) -> Result<LookWant, TreeFault>
        ensures goes { IfOk result (λ want. Reads (T.files tree.old)
            (Stamps dir (step.stamped self.old.sought.name dir self.old.portions (behind self.old)))
            (wants want (means self.new))) }
        ensures awaits { IfOk result (λ want. awaits self.new.stage ≡ want_kind want) }
        ensures suits { OnOk result (ForSome (T.files tree.old) (λ f. Suits self.new.stage f)) }
        ensures quiet { IfOk result is_quiet }
        ensures same { (self.new.sought ≡ self.old.sought) × (self.new.path ≡ self.old.path) }
        ensures refused { OnErr result (self.new.stage ≡ self.old.stage) }
        ensures failed { IsErrOf result TreeFault.Failed → Rose (T.faults tree.old) (T.faults tree.new) }
        ensures faults_stay { OnOk result (T.faults tree.new ≡ T.faults tree.old) }
        ensures files_stay { T.files tree.new ≡ T.files tree.old }
        ensures faults_grow { T.faults tree.old ≤ T.faults tree.new }
        ensures lists_stay { T.lists tree.new ≡ T.lists tree.old }
    {
        match stamp_at(tree, &dir)? {
            Stamp::Dir(time) => {
                let part = self.sought.part.copy()?;
                let asked = dir.copy()?;
                self.wait_at(Stage::Asking { dir, time });
                Ok(LookWant::DirGet { dir: asked, part })
            }
            Stamp::File(_) => Ok(self.enter()?),
            Stamp::Absent => Ok(self.enter()?),
        }
    }

    /// A kept listing is used where it has the directory's time.
    fn replied(&mut self, dir: TreePath, time: u64, reply: Option<Probe>) -> LookWant
        ensures goes { step.replied self.old.sought.name dir time self.old.portions (behind self.old) reply
            ≡ wants result (means self.new) }
        ensures awaits { awaits self.new.stage ≡ want_kind result }
        ensures suits { (f : Files) → IsDirAt f dir → Suits self.new.stage f }
        ensures quiet { is_quiet result }
        ensures same { (self.new.sought ≡ self.old.sought) × (self.new.path ≡ self.old.path) }
    {
        match reply {
            None => self.relist(dir, time),
            Some(probe) => {
                if probe.time == time {
                    self.kept(dir, probe.bare, probe.file)
                } else {
                    self.relist(dir, time)
                }
            }
        }
    }

    /// The directory is to be listed.
    fn relist(&mut self, dir: TreePath, time: u64) -> LookWant
        ensures goes { step.lists self.old.sought.name dir time self.old.portions (behind self.old)
            ≡ wants result (means self.new) }
        ensures awaits { awaits self.new.stage ≡ want_kind result }
        ensures suits { (f : Files) → IsDirAt f dir → Suits self.new.stage f }
        ensures quiet { is_quiet result }
        ensures same { (self.new.sought ≡ self.old.sought) × (self.new.path ≡ self.old.path) }
    {
        self.wait_at(Stage::Listing { dir, time });
        LookWant::Pay { tree: true }
    }

    /// A directory is listed, and the listing is to be kept.
    fn list<T: Tree>(
        &mut self,
        tree: &mut T,
        dir: TreePath,
        time: u64,
    ) -> Result<LookWant, TreeFault>
        requires { ForSome (T.files tree.old) (λ f. IsDirAt f dir) }
        ensures goes { IfOk result (λ want. Reads (T.files tree.old)
            (Lists dir (step.keeps self.old.sought.name dir time self.old.portions (behind self.old)))
            (wants want (means self.new))) }
        ensures awaits { IfOk result (λ want. awaits self.new.stage ≡ want_kind want) }
        ensures suits { OnOk result ((f : Files) → Suits self.new.stage f) }
        ensures counts { CountsLists result (T.lists tree.old) (T.lists tree.new) }
        ensures same { (self.new.sought ≡ self.old.sought) × (self.new.path ≡ self.old.path) }
        ensures refused { OnErr result (self.new.stage ≡ self.old.stage) }
        ensures failed { IsErrOf result TreeFault.Failed → Rose (T.faults tree.old) (T.faults tree.new) }
        ensures faults_stay { OnOk result (T.faults tree.new ≡ T.faults tree.old) }
        ensures files_stay { T.files tree.new ≡ T.files tree.old }
        ensures faults_grow { T.faults tree.old ≤ T.faults tree.new }
    {
        let kept = dir.copy()?;
        let names = tree.list(&dir)?;
        let bare = has_name(&names, &self.sought.part);
        let file = has_name(&names, &self.sought.file);
        self.wait_at(Stage::Keeping { dir, bare, file });
        Ok(LookWant::DirSet {
            dir: kept,
            listing: Listing { time, names },
        })
    }

    /// The listing is kept, and the names are to be probed.
    fn kept(&mut self, dir: TreePath, bare: bool, file: bool) -> LookWant
        ensures goes { step.probes self.old.sought.name dir bare file self.old.portions (behind self.old)
            ≡ wants result (means self.new) }
        ensures awaits { awaits self.new.stage ≡ want_kind result }
        ensures suits { (f : Files) → Suits self.new.stage f }
        ensures quiet { is_quiet result }
        ensures same { (self.new.sought ≡ self.old.sought) × (self.new.path ≡ self.old.path) }
    {
        self.wait_at(Stage::Probing { dir, bare, file });
        LookWant::Pay { tree: true }
    }

    /// The search is over: an entry has this kind of module.
    fn decide(&mut self, kind: SpecKind) -> Result<LookWant, NoMemory>
        ensures goes { IfOk result (λ want. step.ends_with self.old.sought.name kind ≡ wants want (means self.new)) }
        ensures awaits { IfOk result (λ want. awaits self.new.stage ≡ want_kind want) }
        ensures suits { OnOk result ((f : Files) → Suits self.new.stage f) }
        ensures quiet { IfOk result is_quiet }
        ensures same { (self.new.sought ≡ self.old.sought) × (self.new.path ≡ self.old.path) }
        ensures refused { OnErr result (self.new.stage ≡ self.old.stage) }
    {
        let spec = Spec::of(self.sought.name.copy()?, kind)?;
        self.wait_at(Stage::Over);
        Ok(LookWant::Done(Some(Found::Spec(spec))))
    }

    /// The entry does not decide. Its portion is kept, if it has one.
    fn pass(&mut self, dir: &TreePath, portion: bool) -> Result<LookWant, NoMemory>
        ensures goes { IfOk result (λ want. step.passes self.old.sought.name dir.now portion self.old.portions
            (behind self.old) ≡ wants want (means self.new)) }
        ensures awaits { IfOk result (λ want. awaits self.new.stage ≡ want_kind want) }
        ensures suits { OnOk result ((f : Files) → Suits self.new.stage f) }
        ensures quiet { IfOk result is_quiet }
        ensures same { (self.new.sought ≡ self.old.sought) × (self.new.path ≡ self.old.path) }
        ensures refused { OnErr result (self.new.stage ≡ self.old.stage) }
    {
        if portion {
            self.pass_portion(dir)
        } else {
            self.enter()
        }
    }

    /// A portion is kept.
    fn pass_portion(&mut self, dir: &TreePath) -> Result<LookWant, NoMemory>
        ensures goes { IfOk result (λ want. step.passes self.old.sought.name dir.now true self.old.portions
            (behind self.old) ≡ wants want (means self.new)) }
        ensures awaits { IfOk result (λ want. awaits self.new.stage ≡ want_kind want) }
        ensures suits { OnOk result ((f : Files) → Suits self.new.stage f) }
        ensures quiet { IfOk result is_quiet }
        ensures same { (self.new.sought ≡ self.old.sought) × (self.new.path ≡ self.old.path) }
        ensures refused { OnErr result (self.new.stage ≡ self.old.stage) }
    {
        let text = self.sought.portion(dir)?;
        self.portions.push(text)?;
        self.enter()
    }

    /// The search is over: the directory has a regular package.
    fn decide_package(&mut self, dir: &TreePath) -> Result<LookWant, NoMemory>
        ensures goes { IfOk result (λ want. step.ends_with self.old.sought.name
            (package_in dir.now (tail_of self.old.sought.name)) ≡ wants want (means self.new)) }
        ensures awaits { IfOk result (λ want. awaits self.new.stage ≡ want_kind want) }
        ensures suits { OnOk result ((f : Files) → Suits self.new.stage f) }
        ensures quiet { IfOk result is_quiet }
        ensures same { (self.new.sought ≡ self.old.sought) × (self.new.path ≡ self.old.path) }
        ensures refused { OnErr result (self.new.stage ≡ self.old.stage) }
    {
        let kind = self.sought.package(dir)?;
        self.decide(kind)
    }

    /// The search is over: the directory has a module.
    fn decide_module(&mut self, dir: &TreePath) -> Result<LookWant, NoMemory>
        ensures goes { IfOk result (λ want. step.ends_with self.old.sought.name
            (module_in dir.now (tail_of self.old.sought.name)) ≡ wants want (means self.new)) }
        ensures awaits { IfOk result (λ want. awaits self.new.stage ≡ want_kind want) }
        ensures suits { OnOk result ((f : Files) → Suits self.new.stage f) }
        ensures quiet { IfOk result is_quiet }
        ensures same { (self.new.sought ≡ self.old.sought) × (self.new.path ≡ self.old.path) }
        ensures refused { OnErr result (self.new.stage ≡ self.old.stage) }
    {
        let kind = self.sought.module(dir)?;
        self.decide(kind)
    }

    /// The search goes on by what the directory has.
    fn settle(&mut self, dir: &TreePath, has: Has) -> Result<LookWant, NoMemory>
        ensures goes { IfOk result (λ want. settled self.old.sought.name dir.now self.old.portions
            (behind self.old) has ≡ wants want (means self.new)) }
        ensures awaits { IfOk result (λ want. awaits self.new.stage ≡ want_kind want) }
        ensures suits { OnOk result ((f : Files) → Suits self.new.stage f) }
        ensures quiet { IfOk result is_quiet }
        ensures same { (self.new.sought ≡ self.old.sought) × (self.new.path ≡ self.old.path) }
        ensures refused { OnErr result (self.new.stage ≡ self.old.stage) }
    {
        match has {
            Has::Package => self.decide_package(dir),
            Has::Module => self.decide_module(dir),
            Has::Rest { portion } => self.pass(dir, portion),
        }
    }

    /// The names that are listed in a directory are probed.
    fn probe_names<T: Tree>(
        &mut self,
        tree: &mut T,
        dir: &TreePath,
        bare: bool,
        file: bool,
    ) -> Result<LookWant, TreeFault>
        ensures goes { IfOk result (λ want. Reads (T.files tree.old)
            (step.tries self.old.sought.name dir.now bare file self.old.portions (behind self.old))
            (wants want (means self.new))) }
        ensures awaits { IfOk result (λ want. awaits self.new.stage ≡ want_kind want) }
        ensures suits { OnOk result ((f : Files) → Suits self.new.stage f) }
        ensures quiet { IfOk result is_quiet }
        ensures same { (self.new.sought ≡ self.old.sought) × (self.new.path ≡ self.old.path) }
        ensures refused { OnErr result (self.new.stage ≡ self.old.stage) }
        ensures failed { IsErrOf result TreeFault.Failed → Rose (T.faults tree.old) (T.faults tree.new) }
        ensures faults_stay { OnOk result (T.faults tree.new ≡ T.faults tree.old) }
        ensures files_stay { T.files tree.new ≡ T.files tree.old }
        ensures faults_grow { T.faults tree.old ≤ T.faults tree.new }
        ensures lists_stay { T.lists tree.new ≡ T.lists tree.old }
    {
        let has = probed(&self.sought, tree, dir, bare, file)?;
        Ok(self.settle(dir, has)?)
    }

    /// The names that are listed are probed.
    fn probe<T: Tree>(
        &mut self,
        tree: &mut T,
        dir: TreePath,
        bare: bool,
        file: bool,
    ) -> Result<LookWant, TreeFault>
        ensures goes { IfOk result (λ want. Reads (T.files tree.old)
            (step.tries self.old.sought.name dir bare file self.old.portions (behind self.old))
            (wants want (means self.new))) }
        ensures awaits { IfOk result (λ want. awaits self.new.stage ≡ want_kind want) }
        ensures suits { OnOk result ((f : Files) → Suits self.new.stage f) }
        ensures quiet { IfOk result is_quiet }
        ensures same { (self.new.sought ≡ self.old.sought) × (self.new.path ≡ self.old.path) }
        ensures refused { OnErr result (self.new.stage ≡ self.old.stage) }
        ensures failed { IsErrOf result TreeFault.Failed → Rose (T.faults tree.old) (T.faults tree.new) }
        ensures faults_stay { OnOk result (T.faults tree.new ≡ T.faults tree.old) }
        ensures files_stay { T.files tree.new ≡ T.files tree.old }
        ensures faults_grow { T.faults tree.old ≤ T.faults tree.new }
        ensures lists_stay { T.lists tree.new ≡ T.lists tree.old }
    {
        self.probe_names(tree, &dir, bare, file)
    }

    /// The next step, by what the search waited for.
    fn advance<T: Tree>(
        &mut self,
        tree: &mut T,
        stage: Stage,
        reply: Option<Probe>,
    ) -> Result<LookWant, TreeFault>
        requires over { self.old.stage ≡ Stage.Over }
        requires suits { ForSome (T.files tree.old) (λ f. Suits stage f) }
        ensures goes { IfOk result (λ want. Reads (T.files tree.old) (does self.old stage reply)
            (wants want (means self.new))) }
        ensures awaits { IfOk result (λ want. awaits self.new.stage ≡ want_kind want) }
        ensures suits { OnOk result (ForSome (T.files tree.old) (λ f. Suits self.new.stage f)) }
        ensures counts { CountsLists result (T.lists tree.old) (T.lists tree.new) }
        ensures same { (self.new.sought ≡ self.old.sought) × (self.new.path ≡ self.old.path) }
        ensures refused { OnErr result (self.new.stage ≡ Stage.Over) }
        ensures failed { IsErrOf result TreeFault.Failed → Rose (T.faults tree.old) (T.faults tree.new) }
        ensures faults_stay { OnOk result (T.faults tree.new ≡ T.faults tree.old) }
        ensures files_stay { T.files tree.new ≡ T.files tree.old }
        ensures faults_grow { T.faults tree.old ≤ T.faults tree.new }
    {
        match stage {
            Stage::Fresh => Ok(self.enter()?),
            Stage::Passing => Ok(self.enter()?),
            Stage::Stamping(dir) => self.stamp(tree, dir),
            Stage::Asking { dir, time } => Ok(self.replied(dir, time, reply)),
            Stage::Listing { dir, time } => self.list(tree, dir, time),
            Stage::Keeping { dir, bare, file } => Ok(self.kept(dir, bare, file)),
            Stage::Probing { dir, bare, file } => self.probe(tree, dir, bare, file),
            Stage::Over => Ok(LookWant::Done(None)),
        }
    }

    /// The stage of the search, which is over from here on.
    fn take_stage(&mut self) -> Stage
        ensures taken { result ≡ self.old.stage }
        ensures over { self.new ≡ record self.old { stage = Stage.Over } }
    {
        mem::replace(&mut self.stage, Stage::Over)
    }

    /// The next step of the search, with what the last want asked for, or Start at first.
    ///
    /// `goes` says what the search does, input by input, over any tree; `finds` that what it comes
    /// to at last, over a tree that tells its files, is Find on the replies that came. After a
    /// refusal no input fits.
    pub fn next<T: Tree>(&mut self, tree: &mut T, input: LookIn) -> Result<LookWant, TreeFault>
        requires fits { awaits self.old.stage ≡ input_kind input }
        requires suits { ForSome (T.files tree.old) (λ f. Suits self.old.stage f) }
        ensures goes { IfOk result (λ want. Reads (T.files tree.old) (means self.old input)
            (wants want (means self.new))) }
        ensures finds { ForSome (T.files tree.old) (λ f. IfOk result
            (λ want. (replies : List (Option Probe)) → Came f self.old replies
            → Finds f self.new (replies ++ reply_in input) want)) }
        ensures awaits { IfOk result (λ want. awaits self.new.stage ≡ want_kind want) }
        ensures suits { OnOk result (ForSome (T.files tree.old) (λ f. Suits self.new.stage f)) }
        ensures counts { CountsLists result (T.lists tree.old) (T.lists tree.new) }
        ensures same { (self.new.sought ≡ self.old.sought) × (self.new.path ≡ self.old.path) }
        ensures refused { OnErr result (self.new.stage ≡ Stage.Over) }
        ensures failed { IsErrOf result TreeFault.Failed → Rose (T.faults tree.old) (T.faults tree.new) }
        ensures faults_stay { OnOk result (T.faults tree.new ≡ T.faults tree.old) }
        ensures files_stay { T.files tree.new ≡ T.files tree.old }
        ensures faults_grow { T.faults tree.old ≤ T.faults tree.new }
    {
        let reply = reply_of(input);
        let stage = self.take_stage();
        self.advance(tree, stage, reply)
    }
}

/// What an input says of a kept listing.
fn reply_of(input: LookIn) -> Option<Probe>
    ensures { result ≡ reply_of input }
{
    match input {
        LookIn::Listed(reply) => reply,
        LookIn::Start => None,
        LookIn::Paid => None,
        LookIn::Kept => None,
    }
}

impl Drop for Look {
    fn drop(self) {
        let Look {
            sought,
            path,
            at: _,
            portions,
            stage,
        } = self;
        drop(sought);
        drop(path);
        drop(portions);
        drop(stage);
    }
}
