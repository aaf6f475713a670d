// How many pages the files of texts have, by the rules of docs/FORMAT.md, "Built trees", and that they dump as their texts.
use crate::asked::ask;
use crate::loaded::image_of;
use bdb_tool::Bytes;
use std::alloc::{AllocError, Global};
use std::test::Fail;

/// A text of pairs: each key is one letter, the same for all or the next one for each; each datum is two digits that tell its
/// place, and zeros.
#[derive(Clone, Copy)]
struct Shape {
    header: &'static [u8],
    pairs: u8,
    first_key: u8,
    same_key: bool,
    zeros: usize,
}

fn push_pair(text: &mut Bytes, shape: &Shape, at: u8) -> Result<(), AllocError> {
    let key = if shape.same_key {
        shape.first_key
    } else {
        shape.first_key.saturating_add(at)
    };
    text.push_all(&[b' ', key, b'\n', b' ', b'0' + at / 10 % 10, b'0' + at % 10])?;
    for _ in 0..shape.zeros {
        text.push_all(b"0")?;
    }
    text.push_all(b"\n")
}

fn text_of(alloc: Global, shape: &Shape) -> Result<Bytes, AllocError> {
    let mut text = Bytes::new(alloc);
    text.push_all(shape.header)?;
    for at in 0..shape.pairs {
        push_pair(&mut text, shape, at)?;
    }
    text.push_all(b"DATA=END\n")?;
    Ok(text)
}

// A row: a text, how many bytes its file has, and what `verify` says of it.
type Row = (Shape, usize, &'static [u8]);

#[test]
fn files_have_the_counted_pages(rt: HostRuntime) -> Result<(), Fail> {
    let rows: [Row; 4] = [
        // a datum of 5,000 bytes: a leaf, and eleven pages of a chain, ten of 486 bytes and one of 140
        (
            Shape {
                header: b"VERSION=3\nformat=print\ntype=btree\ndb_pagesize=512\ndb_lorder=1234\nHEADER=END\n",
                pairs: 1,
                first_key: b'a',
                same_key: true,
                zeros: 4998,
            },
            6656,
            b"sound, 13 pages\n",
        ),
        // a key with its datum takes 32 bytes, so a leaf takes 15 of them: two leaves and a root
        (
            Shape {
                header: b"VERSION=3\nformat=print\ntype=btree\ndb_pagesize=512\ndb_lorder=1234\nHEADER=END\n",
                pairs: 20,
                first_key: b'A',
                same_key: false,
                zeros: 18,
            },
            2048,
            b"sound, 4 pages\n",
        ),
        // 40 data of one key would take 804 bytes, more than 121: a leaf, and a tree of two leaves and a root
        (
            Shape {
                header: b"VERSION=3\nformat=print\ntype=btree\ndb_pagesize=512\ndb_lorder=4321\nduplicates=1\nHEADER=END\n",
                pairs: 40,
                first_key: b'a',
                same_key: true,
                zeros: 8,
            },
            2560,
            b"sound, 5 pages\n",
        ),
        // the same, sorted
        (
            Shape {
                header: b"VERSION=3\nformat=print\ntype=btree\ndb_pagesize=512\ndb_lorder=1234\nduplicates=1\ndupsort=1\nHEADER=END\n",
                pairs: 40,
                first_key: b'a',
                same_key: true,
                zeros: 8,
            },
            2560,
            b"sound, 5 pages\n",
        ),
    ];
    for (shape, long, verdict) in rows {
        let text = text_of(rt.alloc(), &shape)?;
        let image = image_of(rt.alloc(), text.as_slice())?;
        assert_eq!(rt; image.as_slice().len(), long);
        ask(&rt, rt.alloc(), image.as_slice(), &["verify"], 0, verdict)?;
        ask(
            &rt,
            rt.alloc(),
            image.as_slice(),
            &["dump", "--print"],
            0,
            text.as_slice(),
        )?;
    }
    Ok(())
}
