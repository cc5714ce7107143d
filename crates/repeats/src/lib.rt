// The test for a second name: where the first piece begins whose name stood before.
#![tactic(auto)]

ghost use Rattle.std.specs.Prelude.{◌≡◌, [], ◌∷◌, ◌+◌, ◌<◌, ◌≤◌, length, set, get_or, suc, not, take_while, MatchOption};
ghost use Rattle.lists.specs.Bytes.{same_bytes};
ghost use Rattle.repeats.specs.Pieces.{ends_name, name_of, first_repeat};
ghost use Rattle.repeats.specs.Helpers.Places.{Next, Open};
ghost use Rattle.repeats.specs.Helpers.Names.{mixed, hash_of, common};
ghost use Rattle.repeats.specs.Helpers.Table.{HasLink, above, place, children_of, links_of, starts_of, HasTrees, Finds, Misses, HasGathered, Turn};

// Whether a byte ends a name.
#[tactic(auto, unfolding(crate::specs::Pieces::ends_name))]
fn ends_name(b: u8) -> bool
    ensures { result ≡ ends_name b }
{
    b == b'=' || b == 0
}

// A byte more in a hash: multiply with carry on its two halves, and the byte, spread over them, by exclusive or.
#[tactic(auto, unfolding(crate::specs::Helpers::Names::mixed))]
fn mixed(h: usize, b: u8) -> usize
    ensures { result ≡ mixed h b }
{
    (h % 4294967296 * 4294957665 + h / 4294967296) ^ (usize::from(b) * 44534042262981245)
}

// The hash of the name of a piece.
fn name_hash(piece: &[u8]) -> usize
    ensures { result ≡ hash_of (take_while (λ b. not (ends_name b)) piece.now) }
{
    piece
        .iter()
        .take_while(|b| !ends_name(**b))
        .fold(11400714819323198485, |h, b| mixed(h, *b))
}

// Whether the name of a piece has ended at an offset in it.
fn ended(piece: &[u8], at: usize) -> bool
    ensures { result ≡ ends_name (get_or piece.now at 0) }
{
    at >= piece.len() || ends_name(piece[at])
}

// How many bytes the names of two pieces have in common.
fn common(x: &[u8], y: &[u8]) -> usize
    ensures { result ≡ common x.now y.now }
{
    let bytes = x.iter().zip(y);
    bytes
        .take_while(|pair| pair.0 == pair.1 && !ends_name(*pair.0))
        .count()
}

// Whether two pieces have the same name: both end behind what they have in common.
fn same_name(x: &[u8], y: &[u8]) -> bool
    ensures { result ≡ same_bytes (name_of x.now) (name_of y.now) }
{
    let end = common(x, y);
    ended(x, end) && ended(y, end)
}

// Where the next piece begins, or the end.
fn next_start(pairs: &[u8], at: usize) -> usize
    requires { at < length pairs.now }
    ensures { Next pairs.now at result }
{
    let zero = lists::find_either(pairs, at, 0, 0);
    if zero < pairs.len() {
        return zero + 1;
    }
    zero
}

// An entry of a table: how far from the table's first piece its own begins, and the links to its two children.
#[derive(Clone, Copy)]
struct Entry {
    far: u32,
    children: [u16; 2],
}

impl Entry {
    // Puts what leads to the child on a side.
    fn put(&mut self, side: usize, above: u16)
        requires { side < 2 }
        ensures children { children_of (self.new ∷ []) ≡ set (children_of (self.old ∷ [])) side above }
        ensures far { self.new.far ≡ self.old.far }
    {
        self.children[side] = above;
    }
}

// Where the next block begins, and the offset before which no piece has a name of the blocks so far.
#[derive(Clone, Copy)]
struct Turned {
    mid: usize,
    best: usize,
}

// A link of a table: to the root of a tree, or from an entry to the child on a side.
#[derive(Clone, Copy)]
enum Link {
    Root(usize),
    Child { entry: usize, side: usize },
}

// Pieces from `from` on in digital trees, by the bits of the names' hashes. The memory is fixed, so a link is an index in two
// bytes: 0, or one above the entry that it leads to. What runs for each piece is inlined, to hold the fields in registers.
#[derive(Drop)]
struct Table<'a> {
    pairs: &'a [u8],
    from: usize,
    count: usize,
    roots: &'a mut [u16],
    entries: &'a mut [Entry],
}

impl<'a> Table<'a> {
    // The entry that a link leads to.
    fn entry(&self, link: Link) -> Option<usize>
        requires { HasLink self.now link }
        ensures { MatchOption result (above self.now link ≡ 0) (λ i. above self.now link ≡ suc i) }
    {
        let above = match link {
            Link::Root(tree) => self.roots[tree],
            Link::Child { entry, side } => self.entries[entry].children[side],
        };
        usize::from(above).checked_sub(1)
    }

    // Puts a piece into the table, at the empty link where the walk to its name ends.
    fn insert(&mut self, link: Link, far: u32)
        requires { HasLink self.old link × (self.old.count < length self.old.entries.now) × (length self.old.entries.now < 65536) }
        ensures links { links_of self.new ≡ set (links_of self.old) (place self.old link) (self.old.count + 1) }
        ensures starts { starts_of self.new ≡ set (starts_of self.old) self.old.count (self.old.from + far) }
        ensures count { self.new.count ≡ self.old.count + 1 }
        ensures from { self.new.from ≡ self.old.from }
        ensures pairs { self.new.pairs ≡ self.old.pairs }
    {
        self.entries[self.count].far = far;
        self.count += 1;
        let above = self.count as u16;
        match link {
            Link::Root(tree) => self.roots[tree] = above,
            Link::Child { entry, side } => self.entries[entry].put(side, above),
        }
    }

    // Walks by the hash of the name at `at`: from the root of its tree on, at each entry with another name to the child that the
    // next bit chooses. The answer is the empty link where the walk ends, or none where an entry has the name.
    #[inline(always)]
    fn walk(&self, at: usize) -> Option<Link>
        requires { HasTrees self.now × (at ≤ length self.now.pairs.now) }
        ensures { MatchOption result (Finds self.now at) (λ link. Misses self.now at link) }
    {
        let piece = &self.pairs[at..];
        let hash = name_hash(piece);
        let mut link = Link::Root(hash % 65536 * self.entries.len() / 65536);
        let mut way = hash / 65536;
        while let Some(entry) = self.entry(link) {
            let start = self.from + self.entries[entry].far as usize;
            if same_name(&self.pairs[start..], piece) {
                return None;
            }
            link = Link::Child {
                entry,
                side: way % 2,
            };
            way /= 2;
        }
        Some(link)
    }

    // Gathers a block of the pieces from `from` on, until it is full or too long, or at `best`, or where a name stands in it.
    #[inline(always)]
    fn gather(&mut self, best: usize) -> Turned
        requires { HasGathered self.old self.old.from best × (self.old.from < best) }
        ensures gathered { HasGathered self.new result.mid result.best }
        ensures further { self.old.from < result.mid }
        ensures from { self.new.from ≡ self.old.from }
        ensures pairs { self.new.pairs ≡ self.old.pairs }
    {
        let mut at = self.from;
        // A step is a piece. `successors` would need a closure that asks for what `next_start` asks, and is no shorter.
        while at < best && self.count < self.entries.len() {
            let Ok(far) = u32::try_from(at - self.from) else {
                break;
            };
            let Some(link) = self.walk(at) else {
                return Turned { mid: at, best: at };
            };
            self.insert(link, far);
            at = next_start(self.pairs, at);
        }
        Turned { mid: at, best }
    }

    // Looks up the pieces from `mid` up to `best` in the block up to `mid`: the first that is found, or `best`.
    #[inline(always)]
    fn look_ahead(&self, mid: usize, best: usize) -> usize
        requires { HasGathered self.now mid best × (self.now.from < mid) }
        ensures { Turn self.now.pairs.now self.now.from mid result }
    {
        let mut at = mid;
        // A step is a piece here too, and the walk that ends it borrows the table.
        while at < best {
            if self.walk(at).is_none() {
                return at;
            }
            at = next_start(self.pairs, at);
        }
        best
    }
}

// One block, in a table with N entries. It is never inlined, so that each table has a frame of its own: pairs of up to 64 KiB take
// less than 16 KiB of stack, and longer ones less than 64 KiB.
#[inline(never)]
fn turn<const N: usize>(pairs: &[u8], from: usize, best: usize) -> Turned
    requires { Open pairs.now from best × (0 < N) × (N < 65536) }
    ensures { Turn pairs.now from result.mid result.best }
{
    let mut roots = [0; N];
    let mut entries = [Entry {
        far: 0,
        children: [0, 0],
    }; N];
    let mut table = Table {
        pairs,
        from,
        count: 0,
        roots: &mut roots,
        entries: &mut entries,
    };
    let gathered = table.gather(best);
    let best = table.look_ahead(gathered.mid, gathered.best);
    Turned {
        mid: gathered.mid,
        best,
    }
}

// One block, in a table that suits the bytes of the pairs.
fn turn_sized(pairs: &[u8], from: usize, best: usize) -> Turned
    requires { Open pairs.now from best }
    ensures { Turn pairs.now from result.mid result.best }
{
    match pairs.len() {
        0..=1024 => turn::<64>(pairs, from, best),
        1025..=65536 => turn::<1440>(pairs, from, best),
        _ => turn::<6300>(pairs, from, best),
    }
}

// Where the first piece begins whose name stood before. A piece begins at 0 and after each 0x00; its name ends before its first `=` or 0x00.
pub fn first_repeat(pairs: &[u8]) -> Option<usize>
    ensures { result ≡ first_repeat pairs.now }
{
    let mut best = pairs.len();
    let mut from = 0;
    // A step is a block, which ends where its table is full.
    while from < best {
        let turned = turn_sized(pairs, from, best);
        from = turned.mid;
        best = turned.best;
    }
    (best < pairs.len()).then_some(best)
}
