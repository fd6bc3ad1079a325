// Where the rows lie in the work words: the depths' rows in front, then the masks of the classes, the masks of the
// layers and the rows of the graph at the end.
ghost use Rattle.cliques.specs.Words.{placed};
ghost use Rattle.work_words.specs.Layout.{WithinForm, LaidOut};

use crate::Layout;

pub fn lay_out(len: usize, n: usize, k: usize) -> Layout
    requires { WithinForm n k len }
    ensures { LaidOut (placed result.w result.masks result.graph n k) result.layers len }
{
    let w = n.div_ceil(64);
    let rows = n * w;
    let class_rows = k * w;
    let graph = len - rows;
    let layers = graph - class_rows;
    let masks = layers - class_rows;
    Layout {
        w,
        masks,
        layers,
        graph,
    }
}
