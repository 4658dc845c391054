// What holds of every choice of days, and a worked figure.
ghost use Rattle.choice.specs.Claims.{ChoiceLaw, ChoiceFigures};

// Each chosen day is before the day, matches and is not passed over; they go down; there are at most as many as are
// wanted; and none is left out.
pub fn choice_stands()
    ensures { ChoiceLaw }
{}

// The days that methodology 5 selects for a day that follows a holiday and an event day.
pub fn choice_figures_stand()
    ensures { ChoiceFigures }
{}
