//! What a client does when it has its turn.
ghost use Rattle.std.specs.Prelude.{◌≡◌, ◌<◌};
ghost use Rattle.pm_gen.specs.Draws.{next};
ghost use Rattle.pm_gen.specs.Turns.{IsTyped, turn_at, after_turn, typing, deleting, splitting, marking, losing};

use crate::drawing::Draws;

/// What a client does when it has its turn.
#[derive(Clone, Copy)]
pub(crate) enum Turn {
    Text { at: u64, letter: u8 },
    Delete { from: u64, to: u64 },
    Split { at: u64 },
    AddMark { from: u64, to: u64, strong: bool },
    Undo,
    Redo,
    Push { lost: bool },
    Pull,
}

impl Draws {
    /// What the client does that has its turn now.
    #[tactic(auto, using(crate::proofs::Choices::choices))]
    pub(crate) fn turn(&mut self) -> Turn
        ensures turn { result ≡ turn_at self.old.number }
        ensures typed { IsTyped result }
        ensures number { self.new.number ≡ after_turn self.old.number }
    {
        let kind = self.draw(16);
        if kind <= 5 {
            self.typing()
        } else if kind <= 7 {
            self.deleting()
        } else if kind <= 8 {
            self.splitting()
        } else if kind <= 9 {
            self.marking()
        } else if kind <= 10 {
            Turn::Undo
        } else if kind <= 11 {
            Turn::Redo
        } else if kind <= 13 {
            Turn::Push { lost: false }
        } else if kind <= 14 {
            Turn::Pull
        } else {
            self.losing()
        }
    }

    fn typing(&mut self) -> Turn
        ensures turn { result ≡ typing self.old.number }
        ensures typed { IsTyped result }
        ensures number { self.new.number ≡ next (next self.old.number) }
    {
        let at = 1 + self.draw(30);
        let letter = b'a' + self.draw(26) as u8;
        Turn::Text { at, letter }
    }

    fn deleting(&mut self) -> Turn
        ensures turn { result ≡ deleting self.old.number }
        ensures number { self.new.number ≡ next (next self.old.number) }
    {
        let from = 1 + self.draw(30);
        let to = from + 1 + self.draw(3);
        Turn::Delete { from, to }
    }

    fn splitting(&mut self) -> Turn
        ensures turn { result ≡ splitting self.old.number }
        ensures number { self.new.number ≡ next self.old.number }
    {
        let at = 1 + self.draw(30);
        Turn::Split { at }
    }

    fn marking(&mut self) -> Turn
        ensures turn { result ≡ marking self.old.number }
        ensures number { self.new.number ≡ next (next (next self.old.number)) }
    {
        let from = 1 + self.draw(30);
        let to = from + 1 + self.draw(5);
        let strong = self.draw(2) != 0;
        Turn::AddMark { from, to, strong }
    }

    fn losing(&mut self) -> Turn
        ensures turn { result ≡ losing self.old.number }
        ensures number { self.new.number ≡ next self.old.number }
    {
        let lost = self.draw(2) == 0;
        Turn::Push { lost }
    }
}
