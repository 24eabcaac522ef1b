// The selectors of stage tables.
ghost use Rattle.std.specs.Prelude.{◌≡◌};
ghost use Rattle.book.specs.Level.{level_number};
ghost use Rattle.book.specs.Calls.{lent_family, family_part};

use super::svq1_blocktree::Svq1Level;

// Which half of a family of tables or codebook pages a block uses.
#[derive(Clone, Copy, Debug, PartialEq, Eq)]
pub enum Svq1Half {
    Intra,
    Inter,
}

impl Svq1Level {
    // The level's eight entries of a family of 48; nothing of a slice that is no family.
    #[tactic(auto, using(crate::specs::LevelLaws::family_part_none))]
    pub fn family_part(self, family: &[u8]) -> &[u8]
        ensures { result.now ≡ family_part (level_number self) family.now }
    {
        if family.len() != 144 {
            return &family[0..0];
        }
        let from = 24 * self.number();
        let to = from + 24;
        &family[from..to]
    }

    // The level's eight entries of the lent family that the half names.
    pub fn stage_table<'a>(self, intra: &'a [u8], inter: &'a [u8], half: Svq1Half) -> &'a [u8]
        ensures { result.now ≡ family_part (level_number self) (lent_family half intra.now inter.now) }
    {
        match half {
            Svq1Half::Intra => self.family_part(intra),
            Svq1Half::Inter => self.family_part(inter),
        }
    }
}
