ghost use Rattle.std.specs.Prelude.{◌≡◌};
ghost use Rattle.gt_subtasks.specs.Item as spec;
ghost use Rattle.gt_subtasks.specs.Setting as setting;

use gt_types::{Act, Code, Evidence};

/// How an item succeeded.
#[derive(Clone, Copy, Debug, PartialEq, Eq)]
pub enum How {
    /// It copied a file.
    Copied(Evidence),
    /// The file needed no copy by this sync level.
    Present(u8),
    /// The folder is there, and its listing gave items.
    Expanded,
    /// The folder that is to be removed was listed, and gave items.
    Listed,
    Removed,
    /// There was nothing to remove.
    Gone,
}

/// Where an item stands on its way.
#[derive(Clone, Copy, Debug, PartialEq, Eq)]
pub enum ItemState {
    /// It waits for a worker, and none has had it.
    Pending,
    /// A worker has it, since the event `grant`.
    Running { worker: u8, grant: u64 },
    /// It waits for a worker again.
    Retrying,
    Succeeded(How),
    Failed(Code),
    /// It failed in a way that its task passes over.
    Skipped(Code),
    Canceled,
    Expired,
}

/// As what an item is counted.
#[derive(Clone, Copy, Debug)]
pub enum Class {
    Pending,
    Retrying,
    Succeeded,
    Expired,
    Canceled,
    Failed,
    Skipped,
}

/// An item, as the table of items keeps it: one act of a task.
#[derive(Debug, Drop)]
pub struct Item {
    /// The number of the item, from 1.
    pub number: u64,
    pub task: u64,
    /// The item whose listing gave it.
    pub parent: Option<u64>,
    /// The place, counted from 0, of the entry of the task's document that it comes from.
    pub entry: u64,
    pub act: Act,
    pub state: ItemState,
    /// How many attempts failed by a fault of the trees or by a copy that differed.
    pub faults: u8,
    /// How many bytes were read to take digests.
    pub checked: u64,
    /// Whether it was ever tried again.
    pub tried: bool,
    /// The number of the last event that gave it to a worker.
    pub granted: Option<u64>,
    /// The number of the event at which it ended.
    pub ended: Option<u64>,
}

impl ItemState {
    /// As what an item in this state is counted.
    pub fn class(&self) -> Class
        ensures { result ≡ spec.class_of self.now }
    {
        match self {
            ItemState::Pending | ItemState::Running { .. } => Class::Pending,
            ItemState::Retrying => Class::Retrying,
            ItemState::Succeeded(_) => Class::Succeeded,
            ItemState::Failed(_) => Class::Failed,
            ItemState::Skipped(_) => Class::Skipped,
            ItemState::Canceled => Class::Canceled,
            ItemState::Expired => Class::Expired,
        }
    }

    /// Whether an item in this state has ended.
    pub fn has_ended(&self) -> bool
        ensures { result ≡ spec.has_ended self.now }
    {
        match self {
            ItemState::Pending | ItemState::Running { .. } | ItemState::Retrying => false,
            ItemState::Succeeded(_)
            | ItemState::Failed(_)
            | ItemState::Skipped(_)
            | ItemState::Canceled
            | ItemState::Expired => true,
        }
    }

    /// The event that gave an item in this state to a worker.
    pub fn grant(&self) -> Option<u64>
        ensures { result ≡ spec.grant_of self.now }
    {
        match self {
            ItemState::Running { grant, .. } => Some(*grant),
            _ => None,
        }
    }

    // Whether an item in this state is tried again.
    fn is_retrying(&self) -> bool
        ensures { result ≡ spec.is_retrying self.now }
    {
        match self {
            ItemState::Retrying => true,
            _ => false,
        }
    }

    /// What an item in this state copied.
    pub fn copy(&self) -> Option<Evidence>
        ensures { result ≡ spec.copy_of self.now }
    {
        match self {
            ItemState::Succeeded(How::Copied(evidence)) => Some(*evidence),
            _ => None,
        }
    }
}

impl Class {
    fn number(self) -> u8
        ensures { result ≡ spec.class_number self }
    {
        match self {
            Class::Pending => 0,
            Class::Retrying => 1,
            Class::Succeeded => 2,
            Class::Expired => 3,
            Class::Canceled => 4,
            Class::Failed => 5,
            Class::Skipped => 6,
        }
    }
}

impl Item {
    /// Whether the item is counted so.
    pub fn is_in(&self, class: Class) -> bool
        ensures { result ≡ spec.is_in_class class self.now }
    {
        self.state.class().number() == class.number()
    }

    /// Whether the item is counted as a file.
    pub fn is_file(&self) -> bool
        ensures { result ≡ spec.is_file self.now.state self.now.act }
    {
        match (self.state, &self.act) {
            (ItemState::Succeeded(How::Copied(_) | How::Present(_)), _) => true,
            (ItemState::Succeeded(How::Removed), Act::Erase { .. }) => true,
            _ => false,
        }
    }

    /// Whether the item is counted as a directory.
    pub fn is_directory(&self) -> bool
        ensures { result ≡ spec.is_directory self.now.state self.now.act }
    {
        match (self.state, &self.act) {
            (ItemState::Succeeded(How::Expanded), _) => true,
            (ItemState::Succeeded(How::Removed), Act::RemoveFolder { .. }) => true,
            _ => false,
        }
    }

    /// Whether the item is a file that was left as it was.
    pub fn is_skipped_file(&self) -> bool
        ensures { result ≡ spec.is_skipped_file self.now.state }
    {
        matches!(self.state, ItemState::Succeeded(How::Present(_)))
    }

    /// Whether the item is a file that was copied.
    pub fn is_copied(&self) -> bool
        ensures { result ≡ spec.is_copied self.now }
    {
        self.state.copy().is_some()
    }

    /// How many bytes the item copied.
    pub fn size_copied(&self) -> u64
        ensures { result ≡ spec.size_copied self.now }
    {
        match self.state.copy() {
            Some(evidence) => evidence.size,
            None => 0,
        }
    }

    /// Puts the item in this state since the event `at`. `faults` and `checked` are new totals.
    pub(crate) fn set(&mut self, state: ItemState, faults: u8, checked: u64, at: u64)
        ensures { self.new ≡ setting.set_item state faults checked at self.old }
    {
        if state.is_retrying() {
            self.tried = true;
        }
        if let Some(grant) = state.grant() {
            self.granted = Some(grant);
        }
        self.ended = if state.has_ended() { Some(at) } else { None };
        self.state = state;
        self.faults = faults;
        self.checked = checked;
    }
}
