// A part of the report, handed over: all of the program's output goes through `hand_part`, which takes only what is due.
ghost use Rattle.std.specs.Prelude.{[], ◌≡◌, Ok};
ghost use Rattle.report.specs.Made.{Due, Bounded, HandedOver};

use page::Page;

// The program's output: so many bytes were handed over, and the page holds the next.
#[derive(Drop)]
pub(crate) struct Output {
    pub page: Page,
    pub handed: usize,
}

// A part was not taken whole, and that was told.
#[derive(Clone, Copy, PartialEq, Eq)]
pub(crate) struct Unwritten;

impl Output {
    // An output of which nothing is made.
    pub(crate) fn new() -> Output
        ensures { (result.page ≡ Ok []) × (result.handed ≡ 0) }
    {
        Output {
            page: Page::new(),
            handed: 0,
        }
    }

    // Hands over what the page holds, behind what was handed over before. With the last part a file is stored.
    pub(crate) fn hand_part(&mut self, rt: &HostRuntime, last: bool) -> Result<(), Unwritten>
        requires { Due self.old × Bounded self.old }
        ensures { HandedOver self.old self.new result }
    {
        let held = self.page.count();
        let sent = streams::pass_on(rt, &mut self.page, self.handed, last);
        if !streams::is_whole(sent, held) {
            return Err(Unwritten);
        }
        self.handed += held;
        Ok(())
    }
}
