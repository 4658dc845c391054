// The settings of the methodologies: the days that they serve, match, want and test.
ghost use Rattle.std.specs.Prelude.{◌≡◌};
ghost use Rattle.method.specs.Table.{served_by, matched_by, count_on};

use calendar::DayKind;

// The kinds of past day that match an event's day.
#[derive(Clone, Copy)]
pub enum Matching {
    All,
    Only(DayKind),
    SameKind,
}

// How many days are wanted, and the least that will do.
#[derive(Clone, Copy)]
pub struct Count {
    pub wanted: u8,
    pub minimum: u8,
}

#[derive(Clone, Copy)]
pub struct Settings {
    // the one kind of event day that is served, where not all are
    pub only: Option<DayKind>,
    pub matching: Matching,
    pub business: Count,
    pub non_business: Count,
    pub test_days: u8,
}

// Ten days, and at least five.
const TEN_OR_FIVE: Count = Count {
    wanted: 10,
    minimum: 5,
};

// Four days, all of them.
const FOUR: Count = Count {
    wanted: 4,
    minimum: 4,
};

// Ten days, all of them.
const TEN: Count = Count {
    wanted: 10,
    minimum: 10,
};

// The one table of the methodologies 1 to 5: all days, business days, non-business days, composite, similar days.
// One constant table is a rule of the project; the cases of `Capped` are in its order, and similar days are its last row.
pub(crate) const SETTINGS: [Settings; 5] = [
    Settings {
        only: None,
        matching: Matching::All,
        business: TEN_OR_FIVE,
        non_business: TEN_OR_FIVE,
        test_days: 50,
    },
    Settings {
        only: Some(DayKind::Business),
        matching: Matching::Only(DayKind::Business),
        business: TEN_OR_FIVE,
        non_business: TEN_OR_FIVE,
        test_days: 50,
    },
    Settings {
        only: Some(DayKind::NonBusiness),
        matching: Matching::Only(DayKind::NonBusiness),
        business: FOUR,
        non_business: FOUR,
        test_days: 20,
    },
    Settings {
        only: None,
        matching: Matching::SameKind,
        business: TEN_OR_FIVE,
        non_business: FOUR,
        test_days: 50,
    },
    Settings {
        only: None,
        matching: Matching::SameKind,
        business: TEN,
        non_business: TEN,
        test_days: 50,
    },
];

impl Settings {
    // Whether an event on a day of the kind is served.
    pub fn serves(&self, kind: DayKind) -> bool
        ensures { result ≡ served_by self.now kind }
    {
        self.only.is_none_or(|only| kind == only)
    }

    // Whether a past day matches a day of the kind.
    pub fn matches(&self, day: DayKind, past: DayKind) -> bool
        ensures { result ≡ matched_by self.now day past }
    {
        match self.matching {
            Matching::All => true,
            Matching::Only(kind) => past == kind,
            Matching::SameKind => past == day,
        }
    }

    // The count for a day of the kind.
    pub fn count(&self, day: DayKind) -> Count
        ensures { result ≡ count_on self.now day }
    {
        match day {
            DayKind::Business => self.business,
            DayKind::NonBusiness => self.non_business,
        }
    }
}
