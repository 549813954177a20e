//! Laws of initial data.
ghost use Rattle.lowered_data.specs.Fitting.{DataFit};
ghost use Rattle.lowered_data.specs.Laws.{DataStand, StartIsSound, StartStandsAlone, TextsStand};
ghost use Rattle.lowered_data.specs.Numbering.{NumbersStand};

use c_runs::runs_stay_sound;

/// What a run of C begins with stands in each lowered unit that begins with the initial data, as the law of runs that begin
/// alike asks.
pub fn data_stand()
    ensures { DataStand }
{}

/// Its texts stand there too.
pub fn texts_stand()
    ensures { TextsStand }
{}

/// Names in order stand for what they number.
pub fn numbers_stand()
    ensures { NumbersStand }
{}

/// The items of each object have its size, and name functions and these objects.
pub fn data_fits()
    ensures { DataFit }
{}

/// A checked unit's initialisers depend on no input, and leave just its objects and texts.
pub fn start_stands_alone()
    ensures { StartStandsAlone }
{}

/// What a checked unit's objects hold at the start are words and bytes.
pub fn start_is_sound()
    ensures { StartIsSound }
{
    runs_stay_sound();
}
