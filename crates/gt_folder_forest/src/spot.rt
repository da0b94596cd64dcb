use gt_folders::EntryName;
use gt_paths::Name;
use std::fmt;

/// What a call is about, as a person is told it: a path below the folder of a collection, or a staging file in it.
#[derive(Clone, Copy)]
pub(crate) enum Spot<'a> {
    Path { home: &'a str, names: &'a [Name] },
    Stage { home: &'a str, key: u64 },
}

impl fmt::Display for Spot<'_> {
    fn fmt<W: fmt::Write>(&self, f: &mut fmt::Formatter<W>) -> fmt::Result {
        match self {
            Spot::Path { home, names } => {
                f.write_str(home)?;
                write_names(f, names)
            }
            Spot::Stage { home, key } => {
                let name = EntryName::Staging(*key);
                write!(f, "{home}/{name}")
            }
        }
    }
}

fn write_names<W: fmt::Write>(f: &mut fmt::Formatter<W>, names: &[Name]) -> fmt::Result {
    for name in names {
        f.write_str("/")?;
        f.write_str(name.as_str())?;
    }
    Ok(())
}
