// The arenas that the cases begin with.

// A fresh arena; the words that it doesn't take stay 7, and so do all where it is refused.
pub fn fresh<const WORDS: usize>(workers: u16, nodes: u16) -> [u16; WORDS] {
    let mut arena = [7; WORDS];
    let _ = arena::init(&mut arena, workers, nodes);
    arena
}

// The first of the words.
pub fn first(words: &mut [u16], count: usize) -> &mut [u16] {
    let end = count.min(words.len());
    &mut words[..end]
}

// The arena with some words written anew: the place of each, and the word.
pub fn rewritten<const WORDS: usize>(
    mut arena: [u16; WORDS],
    changes: &[(usize, u16)],
) -> [u16; WORDS] {
    for (at, word) in changes {
        words::put(&mut arena, *at, *word);
    }
    arena
}
