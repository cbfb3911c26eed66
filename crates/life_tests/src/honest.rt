//! A World that is honest: all that is promised of a mount's life if the outside is honest holds of these runs.
ghost use Rattle.eden_object.specs.Objects.{IsHonest};
ghost use Rattle.life_tests.specs.Samples.{sample};

use eden_checkout::{Opening, opening_laws};
use eden_history::Kept;
use eden_model::{Id, World};
use eden_mount::Config;
use eden_object::{one_frame, one_list};
use eden_overlay::MemoryFiles;
use eden_source::MemorySource;
use eden_stdio_life::{Backing, Base, Ending, live};
use std::alloc::{AllocError, Global};
use std::test::Fail;
use test_samples::{NEW_FILE, ONE_FILE, TWO_FILES, VERSION_1, VERSION_2};

/// The World of the sample commit with a directory, over sources and files that keep what they were given. Nothing was
/// stored yet, so of the inode numbers the root's alone is given.
struct Honest;

impl World for Honest {
    ghost use Rattle.eden_model.specs.Repository.{Whole};
    ghost use Rattle.life_tests.specs.Samples.{fresh_numbers, sample, two_files};

    ghost repository = { sample };

    ghost opening = { Whole sample two_files };

    ghost numbers = { fresh_numbers };

    ghost honest = { Unit {0} };
}

/// Puts the repository's own object under its id.
fn put(
    objects: &mut MemorySource<Honest>,
    alloc: Global,
    id: Id,
    framed: &[u8],
) -> Result<(), AllocError>
    requires { IsHonest sample id framed.now }
{
    objects.insert(id, Vec::from_slice(alloc, framed)?)
}

/// The objects of the repository.
fn objects(alloc: Global) -> Result<MemorySource<Honest>, AllocError> {
    one_frame();
    one_list();
    let mut objects = MemorySource::new(alloc);
    put(&mut objects, alloc, VERSION_1.id, VERSION_1.framed)?;
    put(&mut objects, alloc, VERSION_2.id, VERSION_2.framed)?;
    put(&mut objects, alloc, NEW_FILE.id, NEW_FILE.framed)?;
    put(&mut objects, alloc, ONE_FILE.id, ONE_FILE.framed)?;
    put(&mut objects, alloc, TWO_FILES.id, TWO_FILES.framed)?;
    Ok(objects)
}

/// What a mount's life stands on at its end, and how it ended.
type Life = Ending<MemoryFiles<Honest>, MemorySource<Honest>>;

/// Serves the lines on a mount of the commit, over no files.
fn lived(alloc: Global, input: &str, said: &mut Vec<u8>) -> Result<Life, Fail> {
    opening_laws();
    let limits = Config::new(1, 16, 1000, 64, 1 << 20, 64).ok_or("no limits")?;
    let files = MemoryFiles::new(alloc);
    let source = objects(alloc)?;
    let backing = Backing { files, source };
    let base = Base {
        root: TWO_FILES.id,
        opening: Opening::Closed,
    };
    let mut reader = input.as_bytes();
    let history = Kept::new(alloc, limits.history());
    Ok(live::<Honest, _, _, _, _, _, _>(
        alloc,
        alloc,
        history,
        backing,
        base,
        &limits,
        &mut reader,
        said,
    ))
}

const INPUT: &str =
    "read /bak/test.txt 0 100\nwrite /test.txt 0 56\nread /test.txt 0 100\nrename /bak /old\nlist / - 10\nstat /bak\n";

const WANTED: &str = "data 10 76657273696f6e20310a\ncount 1\ndata 10 56657273696f6e20320a\nok\n\
        entries 3 file new.txt dir old file test.txt end\nerr 2 ENOENT\n";

#[test]
fn serves_an_honest_world(rt: HostRuntime) -> Result<(), Fail> {
    let mut said = Vec::new(rt.alloc());
    let ending = lived(rt.alloc(), INPUT, &mut said)?;
    assert!(rt; ending.outcome.is_ok());
    assert!(rt; said.as_slice() == WANTED.as_bytes());
    Ok(())
}

#[test]
fn tells_a_node_one_number(rt: HostRuntime) -> Result<(), Fail> {
    let mut said = Vec::new(rt.alloc());
    let input = "stat /bak\nrename /bak /old\nstat /old\nstat /bak\n";
    let ending = lived(rt.alloc(), input, &mut said)?;
    assert!(rt; ending.outcome.is_ok());
    let wanted = "stat dir 0 2\nok\nstat dir 0 2\nerr 2 ENOENT\n";
    assert!(rt; said.as_slice() == wanted.as_bytes());
    Ok(())
}
