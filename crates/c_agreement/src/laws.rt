//! Laws of the agreement of forests with C: calls that end do so once, and alike on both sides.
ghost use Rattle.c_agreement.specs.Laws.{AgreeingIsTold, BehindIsShown, ComingIsAhead, ComingSuffices, EndsAreAlike, EndsOnce, ResultsStand, StaysStuck, TurnsSuffice};

/// A call of forests that ends does so alike with any number of steps; one that is stuck stays so.
pub fn forests_end_once()
    ensures ends { EndsOnce }
    ensures stuck { StaysStuck }
{}

/// Where the call of forests comes to what C's comes to, it is never further on another way, since each turn of C's is paid by
/// a step: with no more steps than turns it is behind, and where both end, they end alike. So it is enough for a function of
/// forests to agree that its calls come to what C's come to, and to show it of each call from what calls with fewer turns do.
pub fn coming_is_ahead()
    ensures behind { ComingIsAhead }
    ensures ends { EndsAreAlike }
    ensures suffices { ComingSuffices }
    ensures turns { TurnsSuffice }
{}

/// A structure that is returned stands where the first argument word points to.
pub fn results_stand()
    ensures { ResultsStand }
{}

/// What a call that is behind has written, C's call has written, and C's has had the same calls open; and so all that is said of
/// a function that agrees holds of each call that is never undefined.
pub fn agreeing_is_told()
    ensures shown { BehindIsShown }
    ensures told { AgreeingIsTold }
{}
