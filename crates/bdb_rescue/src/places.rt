ghost use Rattle.std.specs.Prelude.{◌≡◌};
ghost use Rattle.std.specs.Iterator.{YieldsFirst, item_count};

use std::marker::Model;

/// What is left of what was kept.
#[derive(Drop)]
pub(crate) struct Places<'s, T> {
    left: &'s [T],
}

impl<'s, T> Model for Places<'s, T> {
    ghost use Rattle.std.specs.Prelude.{List};

    ghost Value = { List T };

    ghost view = { λ it. it.left.now };
}

impl<'s, T> Places<'s, T> {
    pub(crate) fn over(left: &'s [T]) -> Places<'s, T>
        ensures { result ≡ left.now }
    {
        Places { left }
    }
}

impl<'s, T: Copy> Iterator for Places<'s, T> {
    type Item = T;

    ghost next_gives = { YieldsFirst (λ left. left) };

    ghost remaining = { item_count (λ left. left) };

    fn next(&mut self) -> Option<T> {
        let (first, rest) = self.left.split_first()?;
        self.left = rest;
        Some(*first)
    }
}
