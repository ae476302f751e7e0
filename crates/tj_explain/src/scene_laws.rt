//! Laws of lines. They speak of the definitions alone.
ghost use Rattle.tj_explain.specs.SceneLines.{ScenesTellLines};

use tj_json::objects_tell_each_finding;
use tj_texts::texts_tell_each_finding;

/// What is told of the findings of a script is lines.
pub fn scenes_tell_lines()
    // Law: no name of a task or a variable of an input's script has a line feed, nor has a source line that
    // is told. So of such an input findings that are told together have as many lines as the law of texts
    // says, and the object of each finding is one line.
    ensures { ScenesTellLines }
{
    texts_tell_each_finding();
    objects_tell_each_finding();
}
