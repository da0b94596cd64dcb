// The suite over good forests and wrong ones, and what a forest in memory does besides.
ghost use Rattle.std.specs.Prelude.{◌<◌, ◌≡◌, IfOk, IsTrue, OnOk, Some, length};
ghost use Rattle.gt_forest.specs.Tree.{Trees, node_at};
ghost use Rattle.gt_forest.specs.declared.node.Node.TheVariants.{File};

use crate::wrong::{Wrong, WrongForest};
use crate::{SuiteFault, forest_suite};
use gt_forest::{Forest, MemForest, TreeFault};
use gt_paths::{Name, Path};
use gt_types::Kind;
use gt_values::Moment;
use std::alloc::{AllocError, Global};
use std::test::Fail;

// A forest of two collections, where these calls fail and these appends store a wrong byte.
fn made(
    alloc: Global,
    denied: Vec<(u32, Path)>,
    fails: &[u64],
    corrupt: &[u64],
) -> Result<MemForest, AllocError>
    ensures { IfOk result (λ forest. length forest.trees ≡ 2) }
{
    MemForest::new(
        alloc,
        2,
        denied,
        Vec::from_slice(alloc, fails)?,
        Vec::from_slice(alloc, corrupt)?,
    )
}

// One with this wrong in it.
fn wrong_forest(alloc: Global, wrong: Wrong) -> Result<WrongForest<MemForest>, AllocError>
    ensures { IfOk result (λ forest. length forest.inner.trees ≡ 2) }
{
    let inner = made(alloc, Vec::new(alloc), &[], &[])?;
    Ok(WrongForest { inner, wrong })
}

// A file that is placed: each stop leaves it there, with its bytes.
fn place<F: Forest>(
    alloc: Global,
    forest: &mut F,
    path: &Path,
    bytes: &[u8],
) -> Result<(), TreeFault>
    requires { 0 < F.words.collections forest.old }
    ensures { OnOk result (IsTrue (F.words.told forest.old)
        → IsTrue (F.words.trees forest.old).is_faithful
        → (c : Trees) → F.words.may_leave forest.new c
        → node_at c 0 path.now ≡ Some (File bytes.now 0)) }
{
    forest.stage_open(alloc, 0, 1)?;
    forest.stage_append(alloc, 0, 1, bytes)?;
    forest.stage_place(alloc, 0, 1, path, Moment::zero())
}

#[test]
fn placed_file_lasts(rt: HostRuntime) -> Result<(), Fail> {
    let alloc = rt.alloc();
    let path = Path::read(alloc, "/f", &Path::root(alloc))?;
    let mut forest = made(alloc, Vec::new(alloc), &[], &[])?;
    assert_eq!(rt; place(alloc, &mut forest, &path, b"abc"), Ok(()));
    Ok(())
}

#[test]
fn good_forest_is_not_found_wrong(rt: HostRuntime) -> Result<(), Fail> {
    let alloc = rt.alloc();
    let mut forest = made(alloc, Vec::new(alloc), &[], &[])?;
    assert_eq!(rt; forest_suite(alloc, &mut forest), Ok(()));
    let mut lent = &mut forest;
    assert_eq!(rt; forest_suite(alloc, &mut lent), Ok(()));
    assert_eq!(rt; forest.faults(), 0);
    assert_eq!(rt; forest.calls(), 196);
    let mut other = wrong_forest(alloc, Wrong::Nothing)?;
    assert_eq!(rt; forest_suite(alloc, &mut other), Ok(()));
    Ok(())
}

const WRONGS: [Wrong; 10] = [
    Wrong::Kind,
    Wrong::Length,
    Wrong::Time,
    Wrong::Place,
    Wrong::After,
    Wrong::Limit,
    Wrong::Key,
    Wrong::Collection,
    Wrong::OlderFile,
    Wrong::LongAppend,
];

fn is_found_wrong(found: Result<(), SuiteFault>) -> bool {
    matches!(found, Err(SuiteFault::OtherAnswer { .. }))
}

#[test]
fn wrong_forests_are_found(rt: HostRuntime) -> Result<(), Fail> {
    let alloc = rt.alloc();
    for wrong in WRONGS {
        let mut forest = wrong_forest(alloc, wrong)?;
        assert!(rt;
            is_found_wrong(forest_suite(alloc, &mut forest)),
            "{wrong:?}"
        );
    }
    Ok(())
}

#[test]
fn wrong_bytes_and_denied_paths_are_found(rt: HostRuntime) -> Result<(), Fail> {
    let alloc = rt.alloc();
    for append in [5, 6, 7] {
        let mut forest = made(alloc, Vec::new(alloc), &[], &[append])?;
        assert!(rt;
            is_found_wrong(forest_suite(alloc, &mut forest)),
            "append {append}"
        );
    }
    let denied = vec![in alloc; (0, Path::root(alloc))]?;
    let mut forest = made(alloc, denied, &[], &[])?;
    assert!(rt;
        is_found_wrong(forest_suite(alloc, &mut forest)),
        "all is denied"
    );
    Ok(())
}

#[test]
fn each_listed_call_fails(rt: HostRuntime) -> Result<(), Fail> {
    let alloc = rt.alloc();
    for k in 1..99 {
        let mut forest = made(alloc, Vec::new(alloc), &[500, k], &[])?;
        assert_eq!(rt;
            forest_suite(alloc, &mut forest),
            Err(SuiteFault::ForestFault),
            "{k}"
        );
        assert_eq!(rt; forest.calls(), k);
        assert_eq!(rt; forest.faults(), 1);
    }
    Ok(())
}

#[test]
fn listed_append_stores_its_first_byte_inverted(rt: HostRuntime) -> Result<(), Fail> {
    let alloc = rt.alloc();
    let path = Path::read(alloc, "/f", &Path::root(alloc))?;
    let mut forest = made(alloc, Vec::new(alloc), &[], &[9, 2])?;
    assert_eq!(rt; forest.stage_open(alloc, 1, 9), Ok(()));
    assert_eq!(rt; forest.stage_append(alloc, 1, 9, b"ab"), Ok(()));
    assert_eq!(rt; forest.stage_append(alloc, 1, 9, &[0x0f, 1]), Ok(()));
    assert_eq!(rt;
        forest.stage_place(alloc, 1, 9, &path, Moment::zero()),
        Ok(())
    );
    let mut into = [0; 8];
    assert_eq!(rt; forest.read(1, &path, 0, &mut into), Ok(4));
    assert!(rt; into.starts_with(&[b'a', b'b', 0xf0, 1]));
    assert_eq!(rt; forest.stat(0, &path).err(), Some(TreeFault::NotFound));
    Ok(())
}

#[test]
fn denied_paths_are_denied_first(rt: HostRuntime) -> Result<(), Fail> {
    let alloc = rt.alloc();
    let root = Path::root(alloc);
    let denied = vec![in alloc; (1, Path::read(alloc, "/d", &root)?)]?;
    let mut forest = made(alloc, denied, &[], &[])?;
    let below = Path::read(alloc, "/d/e", &root)?;
    assert_eq!(rt; forest.stat(1, &below).err(), Some(TreeFault::Denied));
    assert_eq!(rt; forest.make_dir(alloc, 1, &below), Err(TreeFault::Denied));
    assert_eq!(rt;
        forest.stage_place(alloc, 1, 1, &below, Moment::zero()),
        Err(TreeFault::Denied)
    );
    assert_eq!(rt; forest.stat(0, &below).err(), Some(TreeFault::NotFound));
    let stat = forest.stat(1, &root)?;
    assert!(rt; stat.kind == Kind::Folder && stat.size == 0 && stat.mtime == Moment::zero());
    Ok(())
}

#[test]
fn large_folder_is_listed_in_pages(rt: HostRuntime) -> Result<(), Fail> {
    let alloc = rt.alloc();
    let root = Path::root(alloc);
    let mut forest = made(alloc, Vec::new(alloc), &[], &[])?;
    for k in 0..4096u32 {
        let text = format!(in alloc; "/{k}")?;
        let path = Path::read(alloc, text.as_str(), &root)?;
        assert_eq!(rt; forest.collections(), 2);
        assert_eq!(rt; forest.make_dir(alloc, 0, &path), Ok(()));
    }
    assert_eq!(rt; forest.collections(), 2);
    let entries = forest.list(alloc, 0, &root, None, 5000)?;
    assert_eq!(rt; entries.len(), 4096);
    let name = Name::read(alloc, "4094")?;
    let entries = forest.list(alloc, 0, &root, Some(&name), 2)?;
    assert_eq!(rt; entries.len(), 2);
    assert!(rt; entries.iter().any(|entry| entry.name.as_str() == "4095"));
    assert!(rt; entries.iter().any(|entry| entry.name.as_str() == "41"));
    Ok(())
}
