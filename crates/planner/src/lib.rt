// The fewest write cycles that refill a flash: which sectors are erased and which pages programmed, written out as a list (document 02, request 6/12).
// A page or sector is looked at whole, so that a machine may look at many bytes at once.
#![tactic(auto)]

ghost use Rattle.std.specs.Prelude.{◌≡◌, true, false, [], ◌∷◌, suc, ◌+◌, ◌≤◌, ◌<◌, length};
ghost use Rattle.std.proofs.lemmas.List.Edits.{sets};
ghost use Rattle.law.specs.Words.{pick};
ghost use Rattle.page.specs.Geometry.{flash_page, flash_size, flash_sectors, sector_pages, chip_pages};
ghost use Rattle.flash.specs.Code.{sector_locked};
ghost use Rattle.fewest.specs.declared.Test.TheVariants.{Rises};
ghost use Rattle.fewest.specs.Below.{count_below};
ghost use Rattle.fewest.specs.Entries.{program};
ghost use Rattle.fewest.specs.Fewest.{address, spelled_entry, spelled_list, page_of};
ghost use Rattle.fewest.specs.Call.{left_as, laid_over, Plans};
ghost use Rattle.fewest.specs.Plan.{holds, fitting, laid, made};
ghost use Rattle.planner.specs.Kinds.{kind_byte, Tells};
ghost use Rattle.planner.specs.Made.{made_of};

use fewest::Test;
use record::PlanAnswer;

const CHIP: usize = page::FLASH_SIZE as usize;

const SECTORS: usize = page::FLASH_SECTORS as usize;

const SECTOR: usize = page::FLASH_SECTOR as usize;

const SECTOR_PAGES: usize = page::SECTOR_PAGES as usize;

const PAGE: usize = page::FLASH_PAGE as usize;

// An entry's kind and address; a program has its page behind them.
pub const HEAD: usize = 4;

pub const PROGRAM: usize = HEAD + PAGE;

// No plan is longer: a program for each page, and an erase.
pub const ROOM: usize = PROGRAM * page::CHIP_PAGES as usize + HEAD;

// The kinds of an entry.
#[derive(Clone, Copy, Debug, PartialEq, Eq)]
pub enum Kind {
    SectorErase,
    ChipErase,
    Program,
}

// The kind's byte in the list.
impl From<Kind> for u8 {
    ghost from_gives = { λ kind n. n ≡ kind_byte kind };

    fn from(kind: Kind) -> u8 {
        match kind {
            Kind::SectorErase => 1,
            Kind::ChipErase => 2,
            Kind::Program => 3,
        }
    }
}

// A byte that is the kind of no entry.
#[derive(Clone, Copy, Debug, PartialEq, Eq)]
pub struct UnknownKind(pub u8);

// And the kind that a byte of the list tells.
impl TryFrom<u8> for Kind {
    type Error = UnknownKind;

    ghost try_from_gives = { Tells };

    fn try_from(byte: u8) -> Result<Kind, UnknownKind> {
        match byte {
            1 => Ok(Kind::SectorErase),
            2 => Ok(Kind::ChipErase),
            3 => Ok(Kind::Program),
            _ => Err(UnknownKind(byte)),
        }
    }
}

// A test of a place by its present byte v and its wanted one w.
fn tested(test: Test, v: u8, w: u8) -> bool
    ensures { result ≡ holds test v w }
{
    match test {
        Test::Differs => v != w,
        Test::Rises => v & w != w,
        Test::Unblank => w != 255,
    }
}

// Is sector s locked? The remainder is s itself; with it the number fits a byte for any s.
fn is_locked(status: u8, s: usize) -> bool
    requires { s < flash_sectors }
    ensures { result ≡ sector_locked status (suc s) }
{
    flash::sector_locked(status, (s % SECTORS + 1) as u8)
}

// What the flash has and what it is to have: each the whole chip's.
// Kept: that a sector or a page is one of the chip's is asked of its number: the loops count them, and a type for each is no plainer.
#[derive(Clone, Copy)]
struct Contents<'a> {
    present: &'a [u8],
    wanted: &'a [u8],
    ghost present_whole: { length present.now ≡ flash_size },
    ghost wanted_whole: { length wanted.now ≡ flash_size },
}

impl Contents<'_> {
    ghost use Rattle.planner.specs.Ways.{any_in, in_page, in_sector, pages_of, erase_of, sector_erases, program_if, sector_programs, by_chip, differs_locked};

    // Does the test hold of any of `count` places from `first` on? Every place is looked at.
    fn any_in(self, test: Test, first: usize, count: usize) -> bool
        requires { first + count ≤ flash_size }
        ensures { result ≡ any_in self.entry test first count }
    {
        let mut some = false;
        for q in 0..count {
            let k = first + q;
            some |= tested(test, self.present[k], self.wanted[k]);
        }
        some
    }

    // Of any place of page n?
    fn in_page(self, test: Test, n: usize) -> bool
        requires { n < chip_pages }
        ensures { result ≡ in_page self.entry test n }
    {
        self.any_in(test, PAGE * n, PAGE)
    }

    // Of any place of sector s, counted from 0?
    fn in_sector(self, test: Test, s: usize) -> bool
        requires { s < flash_sectors }
        ensures { result ≡ in_sector self.entry test s }
    {
        self.any_in(test, SECTOR * s, SECTOR)
    }

    // How many pages of sector s the test holds of.
    fn pages_of(self, test: Test, s: usize) -> usize
        requires { s < flash_sectors }
        ensures value { result ≡ pages_of self.entry test s }
        ensures small { result ≤ sector_pages }
    {
        (0..SECTOR_PAGES)
            .filter(|j| self.in_page(test, SECTOR_PAGES * s + *j))
            .count()
    }

    // How many sectors have a bit that has to rise.
    fn count_rising(self) -> usize
        ensures value { result ≡ count_below flash_sectors (in_sector self.entry Rises) }
        ensures small { result ≤ flash_sectors }
    {
        (0..SECTORS)
            .filter(|s| self.in_sector(Test::Rises, *s))
            .count()
    }

    // Refusal 15: a byte that differs stands in a locked sector.
    fn differs_locked(self, status: u8) -> bool
        ensures { result ≡ differs_locked self.entry status }
    {
        (0..SECTORS).any(|s| is_locked(status, s) && self.in_sector(Test::Differs, s))
    }

    // Does a chip erase pay?
    #[tactic(auto, unfolding(fewest::specs::Plan::by_chip))]
    fn by_chip(self, status: u8) -> bool
        ensures { result ≡ by_chip self.entry status }
    {
        let with = Way {
            contents: self,
            status,
            chip: true,
        };
        let without = Way {
            contents: self,
            status,
            chip: false,
        };
        with.count() < without.count()
    }

    // The erase of sector s where it is needed, else nothing; where the next entry goes. Sector s counts from 0.
    fn put_erase_if(self, list: &mut [u8], at: usize, s: usize) -> usize
        requires { (s < flash_sectors) × (at + length (spelled_list (erase_of self s)) ≤ length list.old) }
        ensures list_after { list.new ≡ sets list.old at (spelled_list (erase_of self.entry s)) }
        ensures next { result ≡ at + length (spelled_list (erase_of self.entry s)) }
    {
        if !self.in_sector(Test::Rises, s) {
            return at;
        }
        put_head(list, at, Kind::SectorErase, SECTOR * s);
        at + HEAD
    }

    // The program of page n: its data is written through the part of the list that is lent for it.
    fn put_program(self, list: &mut [u8], at: usize, n: usize)
        requires { (at + 260 ≤ length list.old) × (n < chip_pages) }
        ensures { list.new ≡ sets list.old at (spelled_entry (program n (page_of self.entry.wanted.now n))) }
    {
        put_head(list, at, Kind::Program, PAGE * n);
        let from = at + HEAD;
        let first = PAGE * n;
        fill_page(
            &mut list[from..from + PAGE],
            &self.wanted[first..first + PAGE],
        );
    }

    // The program of page n where the test holds of it, else nothing; where the next entry goes.
    fn put_program_if(self, list: &mut [u8], at: usize, test: Test, n: usize) -> usize
        requires { (n < chip_pages) × (at + length (spelled_list (program_if self test n)) ≤ length list.old) }
        ensures list_after { list.new ≡ sets list.old at (spelled_list (program_if self.entry test n)) }
        ensures next { result ≡ at + length (spelled_list (program_if self.entry test n)) }
    {
        if !self.in_page(test, n) {
            return at;
        }
        self.put_program(list, at, n);
        at + PROGRAM
    }

    // The erases of the sectors where one is needed, by rising address. Where the next entry goes.
    fn put_sector_erases(self, list: &mut [u8]) -> usize
        requires { length (spelled_list (sector_erases self)) ≤ length list.old }
        ensures list_after { list.new ≡ sets list.old 0 (spelled_list (sector_erases self.entry)) }
        ensures next { result ≡ length (spelled_list (sector_erases self.entry)) }
    {
        let mut at: usize = 0;
        for s in 0..SECTORS {
            at = self.put_erase_if(list, at, s);
        }
        at
    }

    // The programs of sector s: its pages of which the test holds, by rising address, from `first` on. Where the next entry goes.
    fn put_sector_programs(self, list: &mut [u8], first: usize, test: Test, s: usize) -> usize
        requires { (s < flash_sectors) × (first + length (spelled_list (sector_programs self test s)) ≤ length list.old) }
        ensures list_after { list.new ≡ sets list.old first (spelled_list (sector_programs self.entry test s)) }
        ensures next { result ≡ first + length (spelled_list (sector_programs self.entry test s)) }
    {
        let mut at = first;
        for j in 0..SECTOR_PAGES {
            at = self.put_program_if(list, at, test, SECTOR_PAGES * s + j);
        }
        at
    }
}

// A way from the present content to the wanted one under a status: with a chip erase or without.
#[derive(Clone, Copy)]
struct Way<'a> {
    contents: Contents<'a>,
    status: u8,
    chip: bool,
}

impl Way<'_> {
    ghost use Rattle.planner.specs.Ways.{erased, test_in, erases, erases_in, programs, programs_in, plan};

    // Is sector s erased, by the chip's erase or by its own?
    fn is_erased(self, s: usize) -> bool
        requires { s < flash_sectors }
        ensures { result ≡ erased self.entry s }
    {
        if self.chip {
            !is_locked(self.status, s)
        } else {
            self.contents.in_sector(Test::Rises, s)
        }
    }

    // Which of its pages are programmed.
    fn test_in(self, s: usize) -> Test
        requires { s < flash_sectors }
        ensures { result ≡ test_in self.entry s }
    {
        if self.is_erased(s) {
            Test::Unblank
        } else {
            Test::Differs
        }
    }

    // How many erases it has.
    #[tactic(auto, unfolding(fewest::specs::Plan::erases_in))]
    fn count_erases(self) -> usize
        ensures value { result ≡ erases_in self.entry }
        ensures small { result ≤ flash_sectors }
    {
        if self.chip {
            1
        } else {
            self.contents.count_rising()
        }
    }

    // How many programs it has.
    fn count_programs(self) -> usize
        ensures value { result ≡ programs_in self.entry }
        ensures small { result ≤ chip_pages }
    {
        let mut count: usize = 0;
        for s in 0..SECTORS {
            count += self.contents.pages_of(self.test_in(s), s);
        }
        count
    }

    // How many entries, and so cycles.
    fn count(self) -> usize
        ensures { result ≡ erases_in self.entry + programs_in self.entry }
    {
        self.count_erases() + self.count_programs()
    }

    // The erases: the chip's, or those of the sectors where one is needed. Where the next entry goes.
    fn put_erases(self, list: &mut [u8]) -> usize
        requires { length (spelled_list (erases self)) ≤ length list.old }
        ensures list_after { list.new ≡ sets list.old 0 (spelled_list (erases self.entry)) }
        ensures next { result ≡ length (spelled_list (erases self.entry)) }
    {
        if self.chip {
            put_head(list, 0, Kind::ChipErase, 0);
            return HEAD;
        }
        self.contents.put_sector_erases(list)
    }

    // The programs, by rising address, from `first` on.
    fn put_programs(self, list: &mut [u8], first: usize)
        requires { first + length (spelled_list (programs self)) ≤ length list.old }
        ensures { list.new ≡ sets list.old first (spelled_list (programs self.entry)) }
    {
        let mut at = first;
        for s in 0..SECTORS {
            let test = self.test_in(s);
            at = self.contents.put_sector_programs(list, at, test, s);
        }
    }

    // The whole plan.
    fn put(self, list: &mut [u8])
        requires { length (spelled_list (plan self)) ≤ length list.old }
        ensures { list.new ≡ laid_over (spelled_list (plan self.entry)) list.old }
    {
        let at = self.put_erases(list);
        self.put_programs(list, at);
    }

    // The plan, laid where the list has room for it, and the number of its entries.
    fn lay(self, list: &mut [u8]) -> Result<u32, PlanAnswer>
        ensures { made_of result list.new ≡ laid (plan self.entry) list.old }
    {
        let erased = self.count_erases();
        let programmed = self.count_programs();
        if list.len() < HEAD * erased + PROGRAM * programmed {
            return Err(PlanAnswer::NoRoom);
        }
        self.put(list);
        Ok((erased + programmed) as u32)
    }
}

// The first four bytes of an entry: its kind, and an address, high byte first.
fn put_head(list: &mut [u8], at: usize, kind: Kind, place: usize)
    requires { at + 4 ≤ length list.old }
    ensures { list.new ≡ sets list.old at (kind_byte kind ∷ address place) }
{
    let [.., high, middle, low] = place.to_be_bytes();
    list[at..at + HEAD].copy_from_slice(&[u8::from(kind), high, middle, low]);
}

// The part that is lent for a page's data.
// Kept: a loop over the places: of two slices that a function takes the compiler knows that they don't overlap, while the library's `copy_from_slice` makes the archive need `memmove` from outside.
fn fill_page(part: &mut [u8], bytes: &[u8])
    requires { length part.old ≡ length bytes.now }
    ensures { part.new ≡ bytes.now }
{
    for q in 0..part.len() {
        part[q] = bytes[q];
    }
}

// None of the grounds of `Unfit`: a result of `res` bytes, both contents the whole chip's, and a status without other bits than 7, 3 and 2.
fn fits(present: &[u8], wanted: &[u8], status: u8, res: usize) -> bool
    ensures { result ≡ fitting status (length present.now) (length wanted.now) res }
{
    present.len() == CHIP
        && wanted.len() == CHIP
        && res == record::PLAN_RESULT
        && record::status_ok(status)
}

// The plan, laid where nothing forbids it, and the number of its entries; for a result of `res` bytes.
fn make(
    list: &mut [u8],
    present: &[u8],
    wanted: &[u8],
    status: u8,
    res: usize,
) -> Result<u32, PlanAnswer>
    ensures { made_of result list.new ≡ made status present.now wanted.now list.old res }
{
    if !fits(present, wanted, status, res) {
        return Err(PlanAnswer::Unfit);
    }
    let contents = Contents { present, wanted };
    if contents.differs_locked(status) {
        return Err(PlanAnswer::Locked);
    }
    let chip = contents.by_chip(status);
    let way = Way {
        contents,
        status,
        chip,
    };
    way.lay(list)
}

// Kept: the answer is a number by the C interface, which `desk_c` hands on.
// The list of erases and programs that takes the flash from its present content to the wanted one in the fewest write cycles: the list gets the entries at its start,
// the result the answer and their number. What is refused leaves the list alone.
pub fn plan(present: &[u8], wanted: &[u8], status: u8, list: &mut [u8], res: &mut [u8]) -> u32
    ensures { Plans status present.now wanted.now list.old res.old (left_as result list.new res.new) }
{
    let (answer, number) = match make(list, present, wanted, status, res.len()) {
        Ok(entries) => (PlanAnswer::Planned, entries),
        Err(refusal) => (refusal, 0),
    };
    let said = u32::from(answer);
    buffers::put_plan_result(res, said, number);
    said
}
